//! Sizes, alignments and the places of fields, by numbers.

ghost use Rattle.std.specs.Prelude.{◌≡◌, ◌^◌, ◌<◌, ◌≤◌, length};
ghost use Rattle.ir_layout.specs.Layout.{most_size, next_multiple, integer_layout, array_layout, field_start, field_end, wider_align, rounded_up, structure_layout, field_offset};
ghost use Rattle.ir_layout.specs.Computed.{within_most};

/// The size and the alignment of a type, in bytes.
#[derive(Clone, Copy, Debug, PartialEq, Eq)]
pub struct Layout {
    /// How many bytes a value has.
    pub size: u64,
    /// What the address of a value is a multiple of.
    pub align: u64,
}

/// The greatest size of a type, in bytes.
pub const MOST_SIZE: u64 = 1_073_741_824;

/// Returns the first multiple of the alignment that isn't below the offset.
fn next_multiple(align: u64, at: u128) -> u128
    requires { at < 2 ^ 66 }
    ensures { result ≡ next_multiple align at }
{
    if align == 0 {
        return at;
    }
    let align = align as u128;
    (at + (align - 1)) / align * align
}

/// Returns the layout of an integer of so many bits.
pub fn integer_layout(bits: u8) -> Layout
    ensures { result ≡ integer_layout bits }
{
    let size = if bits <= 8 {
        1
    } else if bits <= 16 {
        2
    } else if bits <= 32 {
        4
    } else {
        8
    };
    Layout { size, align: size }
}

/// Returns the layout of so many elements in a row, unless they are too great.
pub fn array_layout(count: u64, element: Layout) -> Option<Layout>
    ensures { result ≡ within_most (array_layout count element) }
{
    let size = count as u128 * element.size as u128;
    if size <= MOST_SIZE as u128 {
        let size = size as u64;
        Some(Layout {
            size,
            align: element.align,
        })
    } else {
        None
    }
}

/// Returns where a field begins that comes after what ends at an offset.
pub fn field_start(packed: bool, at: u128, field: Layout) -> u128
    requires { at ≤ most_size }
    ensures { result ≡ field_start packed at field }
{
    if packed {
        at
    } else {
        next_multiple(field.align, at)
    }
}

/// Returns where a field ends that comes after what ends at an offset.
pub fn field_end(packed: bool, at: u128, field: Layout) -> u128
    requires { at ≤ most_size }
    ensures { result ≡ field_end packed at field }
{
    field_start(packed, at, field) + field.size as u128
}

/// Returns the greater of an alignment and a field's; in a packed structure fields have none.
pub fn wider_align(packed: bool, align: u64, field: Layout) -> u64
    ensures { result ≡ wider_align packed align field }
{
    if packed {
        align
    } else {
        align.max(field.align)
    }
}

/// Returns the layout of a structure whose fields end at an offset, unless it is too great.
pub fn rounded_up(align: u64, at: u128) -> Option<Layout>
    requires { at ≤ most_size }
    ensures { result ≡ within_most (rounded_up align at) }
{
    let size = next_multiple(align, at);
    if size <= MOST_SIZE as u128 {
        let size = size as u64;
        Some(Layout { size, align })
    } else {
        None
    }
}
