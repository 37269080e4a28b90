//! The first limit that a module passes.

ghost use Rattle.std.specs.Prelude.{◌≡◌, ◌∷◌, [], ◌↔◌, List, ℕ, length, map, true, flat_map, IsNone, IfSome};
ghost use Rattle.ir_tree.specs.Known.{module_known};
ghost use Rattle.ir_tree.specs.ShapeOf.{body_shape, inst_shape, block_shape, function_shape, module_shape};
ghost use Rattle.ir_layout.specs.Tables.{IsWholeTable};
ghost use Rattle.ir_rules.specs.TypeRules.{HasTypes};
ghost use Rattle.ir_proper.specs.declared.Which.TheVariants.{Params, Results, Cases, Frame};
ghost use Rattle.ir_proper.specs.Limits.{capped, result_count, case_counts, most_of, AreCounts, HaveFrames, AreKept, IsWithin, IsFirstPassed};
ghost use Rattle.ir_limits.specs.Passing.{first_above, IsFirstAmong};

use crate::counts::results_of;
use crate::frames::frame_in;
use crate::globals::room_of_globals;
use crate::weights::weight;
use ir_layout::Layouts;
use ir_proper::Which;
use ir_tree::module::{Block, Body, Function, Inst, Module};

/// A limit that a module passes.
#[derive(Clone, Copy, Debug, PartialEq, Eq)]
pub struct Passed {
    /// The limit.
    pub which: Which,
    /// The first count that is more than the limit allows.
    pub found: u64,
    /// The most that the limit allows.
    pub most: u64,
}

/// Returns the most that a limit allows of each count.
pub fn most_of(which: Which) -> u64
    ensures { result ≡ most_of which }
{
    match which {
        Which::Functions => 4096,
        Which::Params => 64,
        Which::Results => 16384,
        Which::Cases => 1024,
        Which::Frame => 1_048_576,
        Which::Globals => 67_108_864,
        Which::Weight => 262_144,
    }
}

/// Returns a count, if it is more than a limit allows.
fn above(which: Which, count: u64) -> Option<u64>
    ensures { result ≡ first_above (most_of which) (count ∷ []) }
{
    if count > most_of(which) {
        Some(count)
    } else {
        None
    }
}

/// Returns how many parameters the first function has that has too many.
fn first_params(functions: &[Function]) -> Option<u64>
    ensures { (names : List (List ℕ)) → result ≡ first_above (most_of Params)
        (flat_map (λ f. length f.params ∷ []) (map (function_shape names) functions.now)) }
{
    for f in functions {
        if let Some(found) = above(Which::Params, f.params.len() as u64) {
            return Some(found);
        }
    }
    None
}

/// Returns how many values the instructions of the first function give that gives too many.
fn first_results(functions: &[Function]) -> Option<u64>
    ensures { (names : List (List ℕ)) → result ≡ first_above (most_of Results)
        (flat_map (λ f. capped (result_count f) ∷ []) (map (function_shape names) functions.now)) }
{
    for f in functions {
        if let Some(found) = above(Which::Results, results_of(f)) {
            return Some(found);
        }
    }
    None
}

/// Returns how many cases a `switch` has, if it has too many.
fn cases_of(body: &Body) -> Option<u64>
    ensures { (names : List (List ℕ)) →
        result ≡ first_above (most_of Cases) (case_counts (body_shape names body.now)) }
{
    match body {
        Body::Switch(_, _, cases) => above(Which::Cases, cases.len() as u64),
        Body::Phi(_, _)
        | Body::Binary(_, _, _, _, _)
        | Body::Icmp(_, _, _, _)
        | Body::Select(_, _, _)
        | Body::Convert(_, _, _, _)
        | Body::Freeze(_, _)
        | Body::Alloca(_, _)
        | Body::Load(_, _)
        | Body::Store(_, _)
        | Body::Gep(_, _, _, _)
        | Body::Call(_, _, _)
        | Body::Jump(_)
        | Body::Branch(_, _, _)
        | Body::RetVoid
        | Body::Ret(_)
        | Body::Unreachable => None,
    }
}

/// Returns how many cases the first `switch` of these instructions has that has too many.
fn first_cases_of_insts(insts: &[Inst]) -> Option<u64>
    ensures { (names : List (List ℕ)) → result ≡ first_above (most_of Cases)
        (flat_map (λ x. case_counts x.body) (map (inst_shape names) insts.now)) }
{
    for inst in insts {
        if let Some(found) = cases_of(&inst.body) {
            return Some(found);
        }
    }
    None
}

/// Returns how many cases the first `switch` of these blocks has that has too many.
fn first_cases_of_blocks(blocks: &[Block]) -> Option<u64>
    ensures { (names : List (List ℕ)) → result ≡ first_above (most_of Cases)
        (flat_map (λ b. flat_map (λ x. case_counts x.body) b.insts)
        (map (block_shape names) blocks.now)) }
{
    for block in blocks {
        if let Some(found) = first_cases_of_insts(&block.insts) {
            return Some(found);
        }
    }
    None
}

/// Returns how many cases the first `switch` has that has too many.
fn first_cases(functions: &[Function]) -> Option<u64>
    ensures { (names : List (List ℕ)) → result ≡ first_above (most_of Cases)
        (flat_map (λ f. flat_map (λ b. flat_map (λ x. case_counts x.body) b.insts) f.blocks)
        (map (function_shape names) functions.now)) }
{
    for f in functions {
        if let Some(found) = first_cases_of_blocks(&f.blocks) {
            return Some(found);
        }
    }
    None
}

/// Returns the frame of the first function whose frame is too great.
fn first_frame(m: &Module, layouts: &Layouts) -> Option<u64>
    requires known { module_known m.now ≡ true }
    requires table { IsWholeTable m.now layouts.now }
    requires types { HasTypes (module_shape m.now) }
    ensures { (counts : List ℕ) →
        HaveFrames (module_shape m.now).types (module_shape m.now).functions counts →
        result ≡ first_above (most_of Frame) counts }
{
    for f in &m.functions {
        if let Some(found) = above(Which::Frame, frame_in(m, Some(layouts), f)) {
            return Some(found);
        }
    }
    None
}

/// Returns the first count of a limit that is more than it allows.
fn first_of_limit(m: &Module, layouts: &Layouts, which: Which) -> Option<u64>
    requires known { module_known m.now ≡ true }
    requires table { IsWholeTable m.now layouts.now }
    requires types { HasTypes (module_shape m.now) }
    ensures { (counts : List ℕ) → AreCounts (module_shape m.now) which counts →
        result ≡ first_above (most_of which) counts }
{
    match which {
        Which::Functions => above(which, m.functions.len() as u64),
        Which::Params => first_params(&m.functions),
        Which::Results => first_results(&m.functions),
        Which::Cases => first_cases(&m.functions),
        Which::Frame => first_frame(m, layouts),
        Which::Globals => above(which, room_of_globals(m, layouts)),
        Which::Weight => above(which, weight(m)),
    }
}

/// The limits, in the order in which they are looked at.
const LIMITS: [Which; 7] = [
    Which::Functions,
    Which::Params,
    Which::Results,
    Which::Cases,
    Which::Frame,
    Which::Globals,
    Which::Weight,
];

/// Returns the first of these limits that a module passes, with the first count that passes it.
fn first_among(m: &Module, layouts: &Layouts, limits: &[Which]) -> Option<Passed>
    requires known { module_known m.now ≡ true }
    requires table { IsWholeTable m.now layouts.now }
    requires types { HasTypes (module_shape m.now) }
    ensures none { IsNone result ↔ AreKept (module_shape m.now) limits.now }
    ensures first { IfSome result (λ p.
        IsFirstAmong (module_shape m.now) limits.now p.which p.found) }
    ensures most { IfSome result (λ p. p.most ≡ most_of p.which) }
{
    for which in limits {
        if let Some(found) = first_of_limit(m, layouts, *which) {
            return Some(Passed {
                which: *which,
                found,
                most: most_of(*which),
            });
        }
    }
    None
}

/// Returns the first limit that a module passes whose names and types are proper, with the first count that
/// passes it.
///
/// This takes no memory, and the time is linear in the module.
pub fn first_passed(m: &Module, layouts: &Layouts) -> Option<Passed>
    requires known { module_known m.now ≡ true }
    requires table { IsWholeTable m.now layouts.now }
    requires types { HasTypes (module_shape m.now) }
    ensures none { IsNone result ↔ IsWithin (module_shape m.now) }
    ensures first { IfSome result (λ p. IsFirstPassed (module_shape m.now) p.which p.found) }
    ensures most { IfSome result (λ p. p.most ≡ most_of p.which) }
{
    first_among(m, layouts, &LIMITS)
}
