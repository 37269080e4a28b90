//! The words of the language, each with what it stands for.

ghost use Rattle.std.specs.Prelude.{◌≡◌, true, map};
ghost use Rattle.ir_words.specs.Lists.{keyword_head, language_keywords, dropped_words, outside_words};
ghost use Rattle.ir_words.specs.Digits.{is_number};
ghost use Rattle.ir_words.specs.Words.{spelled_by, listed, is_among, are_distinct, all_words, has_leading_zero, width_keyword, is_integer_word, integer_keyword, language_word, dropped_word, outside_word, is_other, keyword_of, is_header, is_caller, is_align, is_comdat, is_group_word, is_quiet_word, is_outside_word};

use crate::digits::{is_number, value};

/// What a word stands for.
#[derive(Clone, Copy, Debug, PartialEq, Eq)]
pub enum Keyword {
    /// Names a file, a machine, a group of attributes or an order of uses, to the end of its line.
    HeaderLine,
    /// `declare`.
    Declare,
    /// `call`.
    Call,
    /// `align`.
    Align,
    /// `comdat`.
    Comdat,
    /// An attribute that a group in parentheses may follow.
    Group,
    /// `tail`, `notail` or `musttail`.
    Tail,
    /// An attribute or a flag that stands alone.
    Quiet,
    /// An integer type of this width, 1 to 64 bits.
    Integer(u8),
    /// `type`.
    Type,
    /// `global`.
    Global,
    /// `constant`.
    Constant,
    /// `define`.
    Define,
    /// `x`.
    X,
    /// `void`.
    Void,
    /// `ptr`.
    Ptr,
    /// `phi`.
    Phi,
    /// `add`.
    Add,
    /// `sub`.
    Sub,
    /// `mul`.
    Mul,
    /// `shl`.
    Shl,
    /// `udiv`.
    Udiv,
    /// `sdiv`.
    Sdiv,
    /// `lshr`.
    Lshr,
    /// `ashr`.
    Ashr,
    /// `urem`.
    Urem,
    /// `srem`.
    Srem,
    /// `and`.
    And,
    /// `or`.
    Or,
    /// `xor`.
    Xor,
    /// `nuw`.
    Nuw,
    /// `nsw`.
    Nsw,
    /// `exact`.
    Exact,
    /// `inbounds`.
    InBounds,
    /// `icmp`.
    Icmp,
    /// `select`.
    Select,
    /// `zext`.
    Zext,
    /// `sext`.
    Sext,
    /// `trunc`.
    Trunc,
    /// `to`.
    To,
    /// `freeze`.
    Freeze,
    /// `alloca`.
    Alloca,
    /// `load`.
    Load,
    /// `store`.
    Store,
    /// `getelementptr`.
    GetElementPtr,
    /// `br`.
    Br,
    /// `label`.
    Label,
    /// `switch`.
    Switch,
    /// `ret`.
    Ret,
    /// `unreachable`.
    Unreachable,
    /// `eq`.
    Eq,
    /// `ne`.
    Ne,
    /// `ugt`.
    Ugt,
    /// `uge`.
    Uge,
    /// `ult`.
    Ult,
    /// `ule`.
    Ule,
    /// `sgt`.
    Sgt,
    /// `sge`.
    Sge,
    /// `slt`.
    Slt,
    /// `sle`.
    Sle,
    /// `true`.
    True,
    /// `false`.
    False,
    /// `null`.
    Null,
    /// `undef`.
    Undef,
    /// `poison`.
    Poison,
    /// `zeroinitializer`.
    ZeroInitializer,
    /// A word that is outside the language.
    Outside,
    /// Any other word.
    Other,
}

/// The keywords that have a word of their own, which a module is made of.
const LANGUAGE_KEYWORDS: [Keyword; 59] = [
    Keyword::Declare,
    Keyword::Call,
    Keyword::Type,
    Keyword::Global,
    Keyword::Constant,
    Keyword::Define,
    Keyword::X,
    Keyword::Void,
    Keyword::Ptr,
    Keyword::Phi,
    Keyword::Add,
    Keyword::Sub,
    Keyword::Mul,
    Keyword::Shl,
    Keyword::Udiv,
    Keyword::Sdiv,
    Keyword::Lshr,
    Keyword::Ashr,
    Keyword::Urem,
    Keyword::Srem,
    Keyword::And,
    Keyword::Or,
    Keyword::Xor,
    Keyword::Nuw,
    Keyword::Nsw,
    Keyword::Exact,
    Keyword::InBounds,
    Keyword::Icmp,
    Keyword::Select,
    Keyword::Zext,
    Keyword::Sext,
    Keyword::Trunc,
    Keyword::To,
    Keyword::Freeze,
    Keyword::Alloca,
    Keyword::Load,
    Keyword::Store,
    Keyword::GetElementPtr,
    Keyword::Br,
    Keyword::Label,
    Keyword::Switch,
    Keyword::Ret,
    Keyword::Unreachable,
    Keyword::Eq,
    Keyword::Ne,
    Keyword::Ugt,
    Keyword::Uge,
    Keyword::Ult,
    Keyword::Ule,
    Keyword::Sgt,
    Keyword::Sge,
    Keyword::Slt,
    Keyword::Sle,
    Keyword::True,
    Keyword::False,
    Keyword::Null,
    Keyword::Undef,
    Keyword::Poison,
    Keyword::ZeroInitializer,
];

/// The words that are dropped, alone or with what stands beside them.
const DROPPED_WORDS: [(&[u8], Keyword); 79] = [
    (b"source_filename", Keyword::HeaderLine),
    (b"target", Keyword::HeaderLine),
    (b"attributes", Keyword::HeaderLine),
    (b"uselistorder", Keyword::HeaderLine),
    (b"align", Keyword::Align),
    (b"dereferenceable", Keyword::Group),
    (b"dereferenceable_or_null", Keyword::Group),
    (b"captures", Keyword::Group),
    (b"range", Keyword::Group),
    (b"memory", Keyword::Group),
    (b"initializes", Keyword::Group),
    (b"allocsize", Keyword::Group),
    (b"sret", Keyword::Group),
    (b"elementtype", Keyword::Group),
    (b"comdat", Keyword::Comdat),
    (b"uwtable", Keyword::Group),
    (b"allockind", Keyword::Group),
    (b"vscale_range", Keyword::Group),
    (b"nofpclass", Keyword::Group),
    (b"dso_local", Keyword::Quiet),
    (b"dso_preemptable", Keyword::Quiet),
    (b"private", Keyword::Quiet),
    (b"internal", Keyword::Quiet),
    (b"linkonce", Keyword::Quiet),
    (b"linkonce_odr", Keyword::Quiet),
    (b"weak", Keyword::Quiet),
    (b"weak_odr", Keyword::Quiet),
    (b"common", Keyword::Quiet),
    (b"hidden", Keyword::Quiet),
    (b"protected", Keyword::Quiet),
    (b"default", Keyword::Quiet),
    (b"unnamed_addr", Keyword::Quiet),
    (b"local_unnamed_addr", Keyword::Quiet),
    (b"fastcc", Keyword::Quiet),
    (b"ccc", Keyword::Quiet),
    (b"coldcc", Keyword::Quiet),
    (b"tail", Keyword::Tail),
    (b"notail", Keyword::Tail),
    (b"musttail", Keyword::Tail),
    (b"signext", Keyword::Quiet),
    (b"zeroext", Keyword::Quiet),
    (b"inreg", Keyword::Quiet),
    (b"noalias", Keyword::Quiet),
    (b"nocapture", Keyword::Quiet),
    (b"nonnull", Keyword::Quiet),
    (b"noundef", Keyword::Quiet),
    (b"returned", Keyword::Quiet),
    (b"readonly", Keyword::Quiet),
    (b"readnone", Keyword::Quiet),
    (b"writeonly", Keyword::Quiet),
    (b"nofree", Keyword::Quiet),
    (b"immarg", Keyword::Quiet),
    (b"nounwind", Keyword::Quiet),
    (b"willreturn", Keyword::Quiet),
    (b"mustprogress", Keyword::Quiet),
    (b"nosync", Keyword::Quiet),
    (b"norecurse", Keyword::Quiet),
    (b"noreturn", Keyword::Quiet),
    (b"noinline", Keyword::Quiet),
    (b"alwaysinline", Keyword::Quiet),
    (b"optnone", Keyword::Quiet),
    (b"optsize", Keyword::Quiet),
    (b"minsize", Keyword::Quiet),
    (b"cold", Keyword::Quiet),
    (b"hot", Keyword::Quiet),
    (b"speculatable", Keyword::Quiet),
    (b"ssp", Keyword::Quiet),
    (b"sspstrong", Keyword::Quiet),
    (b"sspreq", Keyword::Quiet),
    (b"builtin", Keyword::Quiet),
    (b"nobuiltin", Keyword::Quiet),
    (b"allocptr", Keyword::Quiet),
    (b"dead_on_unwind", Keyword::Quiet),
    (b"writable", Keyword::Quiet),
    (b"volatile", Keyword::Quiet),
    (b"nneg", Keyword::Quiet),
    (b"disjoint", Keyword::Quiet),
    (b"samesign", Keyword::Quiet),
    (b"nusw", Keyword::Quiet),
];

/// The words that are outside the language.
const OUTSIDE_WORDS: [&[u8]; 66] = [
    b"half",
    b"bfloat",
    b"float",
    b"double",
    b"fp128",
    b"x86_fp80",
    b"ppc_fp128",
    b"x86_mmx",
    b"x86_amx",
    b"token",
    b"opaque",
    b"fneg",
    b"fadd",
    b"fsub",
    b"fmul",
    b"fdiv",
    b"frem",
    b"fcmp",
    b"fptrunc",
    b"fpext",
    b"fptoui",
    b"fptosi",
    b"uitofp",
    b"sitofp",
    b"ptrtoint",
    b"inttoptr",
    b"bitcast",
    b"addrspacecast",
    b"addrspace",
    b"extractelement",
    b"insertelement",
    b"shufflevector",
    b"extractvalue",
    b"insertvalue",
    b"atomic",
    b"atomicrmw",
    b"cmpxchg",
    b"fence",
    b"invoke",
    b"resume",
    b"landingpad",
    b"catchswitch",
    b"catchret",
    b"catchpad",
    b"cleanupret",
    b"cleanuppad",
    b"callbr",
    b"indirectbr",
    b"blockaddress",
    b"va_arg",
    b"asm",
    b"byval",
    b"inalloca",
    b"preallocated",
    b"external",
    b"extern_weak",
    b"thread_local",
    b"alias",
    b"ifunc",
    b"metadata",
    b"personality",
    b"gc",
    b"swiftself",
    b"swifterror",
    b"vscale",
    b"...",
];

/// Returns the word of a keyword, of an integer type what stands before its width; no bytes where many words
/// stand for it, or where it is not of the language.
pub fn keyword_head(keyword: Keyword) -> &'static [u8]
    ensures { result.now ≡ keyword_head keyword }
{
    match keyword {
        Keyword::Integer(_) => b"i",
        Keyword::Declare => b"declare",
        Keyword::Call => b"call",
        Keyword::Type => b"type",
        Keyword::Global => b"global",
        Keyword::Constant => b"constant",
        Keyword::Define => b"define",
        Keyword::X => b"x",
        Keyword::Void => b"void",
        Keyword::Ptr => b"ptr",
        Keyword::Phi => b"phi",
        Keyword::Add => b"add",
        Keyword::Sub => b"sub",
        Keyword::Mul => b"mul",
        Keyword::Shl => b"shl",
        Keyword::Udiv => b"udiv",
        Keyword::Sdiv => b"sdiv",
        Keyword::Lshr => b"lshr",
        Keyword::Ashr => b"ashr",
        Keyword::Urem => b"urem",
        Keyword::Srem => b"srem",
        Keyword::And => b"and",
        Keyword::Or => b"or",
        Keyword::Xor => b"xor",
        Keyword::Nuw => b"nuw",
        Keyword::Nsw => b"nsw",
        Keyword::Exact => b"exact",
        Keyword::InBounds => b"inbounds",
        Keyword::Icmp => b"icmp",
        Keyword::Select => b"select",
        Keyword::Zext => b"zext",
        Keyword::Sext => b"sext",
        Keyword::Trunc => b"trunc",
        Keyword::To => b"to",
        Keyword::Freeze => b"freeze",
        Keyword::Alloca => b"alloca",
        Keyword::Load => b"load",
        Keyword::Store => b"store",
        Keyword::GetElementPtr => b"getelementptr",
        Keyword::Br => b"br",
        Keyword::Label => b"label",
        Keyword::Switch => b"switch",
        Keyword::Ret => b"ret",
        Keyword::Unreachable => b"unreachable",
        Keyword::Eq => b"eq",
        Keyword::Ne => b"ne",
        Keyword::Ugt => b"ugt",
        Keyword::Uge => b"uge",
        Keyword::Ult => b"ult",
        Keyword::Ule => b"ule",
        Keyword::Sgt => b"sgt",
        Keyword::Sge => b"sge",
        Keyword::Slt => b"slt",
        Keyword::Sle => b"sle",
        Keyword::True => b"true",
        Keyword::False => b"false",
        Keyword::Null => b"null",
        Keyword::Undef => b"undef",
        Keyword::Poison => b"poison",
        Keyword::ZeroInitializer => b"zeroinitializer",
        Keyword::HeaderLine
        | Keyword::Align
        | Keyword::Comdat
        | Keyword::Group
        | Keyword::Tail
        | Keyword::Quiet
        | Keyword::Outside
        | Keyword::Other => b"",
    }
}

/// Returns the first of these keywords whose word this is, or `Other`.
#[tactic(auto, unfolding(crate::specs::Words::spelled_by))]
fn spelled_by(keywords: &[Keyword], word: &[u8]) -> Keyword
    ensures { result ≡ spelled_by keywords.now word.now }
{
    for keyword in keywords {
        if keyword_head(*keyword) == word {
            return *keyword;
        }
    }
    Keyword::Other
}

/// Returns what the word stands for by the rows of a table, or `Other`.
#[tactic(auto, unfolding(crate::specs::Words::listed))]
fn listed(table: &[(&[u8], Keyword)], word: &[u8]) -> Keyword
    ensures { result ≡ listed (map (λ row. (row.0.now, row.1)) table.now) word.now }
{
    for (spelling, keyword) in table {
        if *spelling == word {
            return *keyword;
        }
    }
    Keyword::Other
}

/// Tells whether the word is one of these.
#[tactic(auto, unfolding(crate::specs::Words::is_among))]
fn is_among(words: &[&[u8]], word: &[u8]) -> bool
    ensures { result ≡ is_among (map (λ w. w.now) words.now) word.now }
{
    for spelling in words {
        if *spelling == word {
            return true;
        }
    }
    false
}

/// Tells whether the digits begin with a zero.
fn has_leading_zero(digits: &[u8]) -> bool
    ensures { result ≡ has_leading_zero digits.now }
{
    match digits {
        [first, ..] => *first == b'0',
        [] => false,
    }
}

/// Returns what `i` and these digits stand for.
fn width_keyword(digits: &[u8]) -> Keyword
    requires { is_number digits.now ≡ true }
    ensures { result ≡ width_keyword digits.now }
{
    let width = value(digits);
    if !has_leading_zero(digits) && width < 65 {
        Keyword::Integer(width as u8)
    } else {
        Keyword::Outside
    }
}

/// Tells whether the word is `i` and digits.
fn is_integer_word(word: &[u8]) -> bool
    ensures { result ≡ is_integer_word word.now }
{
    match word {
        [b'i', digits @ ..] => is_number(digits),
        _ => false,
    }
}

/// Returns what `i` and digits stand for.
fn integer_keyword(word: &[u8]) -> Keyword
    requires { is_integer_word word.now ≡ true }
    ensures { result ≡ integer_keyword word.now }
{
    match word {
        [_, digits @ ..] => width_keyword(digits),
        [] => Keyword::Other,
    }
}

/// Proves that the keywords with a word of their own are those that the definitions list.
#[tactic(auto, unfolding(crate::specs::Lists::language_keywords))]
pub fn language_keywords_are_listed()
    ensures { LANGUAGE_KEYWORDS ≡ language_keywords }
{}

/// Proves that the words that are dropped, with what they stand for, are those that the definitions list.
#[tactic(auto, unfolding(crate::specs::Lists::dropped_words))]
pub fn dropped_words_are_listed()
    ensures { map (λ row. (row.0.now, row.1)) DROPPED_WORDS ≡ dropped_words }
{}

/// Proves that the words outside the language are those that the definitions list.
#[tactic(auto, unfolding(crate::specs::Lists::outside_words))]
pub fn outside_words_are_listed()
    ensures { map (λ word. word.now) OUTSIDE_WORDS ≡ outside_words }
{}

/// Proves that no word stands twice in the lists, so that none has two meanings.
#[tactic(auto, unfolding(crate::specs::Words::are_distinct, crate::specs::Words::is_among, crate::specs::Words::all_words, crate::specs::Lists::language_keywords, crate::specs::Lists::dropped_words, crate::specs::Lists::outside_words))]
pub fn words_are_distinct()
    ensures { are_distinct all_words ≡ true }
{}

/// Returns what a word of a module stands for, or `Other`.
#[tactic(auto, unfolding(crate::specs::Words::language_word))]
fn language_word(word: &[u8]) -> Keyword
    ensures { result ≡ language_word word.now }
{
    language_keywords_are_listed();
    spelled_by(&LANGUAGE_KEYWORDS, word)
}

/// Returns what a word that is dropped stands for, or `Other`.
#[tactic(auto, unfolding(crate::specs::Words::dropped_word))]
fn dropped_word(word: &[u8]) -> Keyword
    ensures { result ≡ dropped_word word.now }
{
    dropped_words_are_listed();
    listed(&DROPPED_WORDS, word)
}

/// Returns `Outside` for a word that is outside the language, and else `Other`.
#[tactic(auto, unfolding(crate::specs::Words::outside_word))]
fn outside_word(word: &[u8]) -> Keyword
    ensures { result ≡ outside_word word.now }
{
    outside_words_are_listed();
    if is_among(&OUTSIDE_WORDS, word) {
        Keyword::Outside
    } else {
        Keyword::Other
    }
}

/// Tells whether the word stands for nothing.
fn is_other(keyword: Keyword) -> bool
    ensures { result ≡ is_other keyword }
{
    matches!(keyword, Keyword::Other)
}

/// Returns what a word stands for: `i` and digits is an integer type or outside the language, and of any
/// other word the tables tell.
#[tactic(auto, unfolding(crate::specs::Words::keyword_of))]
pub fn keyword_of(word: &[u8]) -> Keyword
    ensures { result ≡ keyword_of word.now }
{
    if is_integer_word(word) {
        return integer_keyword(word);
    }
    let keyword = language_word(word);
    if !is_other(keyword) {
        return keyword;
    }
    let keyword = dropped_word(word);
    if !is_other(keyword) {
        return keyword;
    }
    outside_word(word)
}

/// Tells whether lines that begin with the word are dropped.
pub fn is_header(keyword: Keyword) -> bool
    ensures { result ≡ is_header keyword }
{
    matches!(keyword, Keyword::HeaderLine)
}

/// Tells whether a line that begins with the word may be a note to the optimizer.
pub fn is_caller(keyword: Keyword) -> bool
    ensures { result ≡ is_caller keyword }
{
    matches!(keyword, Keyword::Declare | Keyword::Call | Keyword::Tail)
}

/// Tells whether the word is `align`.
pub fn is_align(keyword: Keyword) -> bool
    ensures { result ≡ is_align keyword }
{
    matches!(keyword, Keyword::Align)
}

/// Tells whether the word is `comdat`.
pub fn is_comdat(keyword: Keyword) -> bool
    ensures { result ≡ is_comdat keyword }
{
    matches!(keyword, Keyword::Comdat)
}

/// Tells whether a group may follow the word, which is dropped with it.
pub fn is_group_word(keyword: Keyword) -> bool
    ensures { result ≡ is_group_word keyword }
{
    matches!(keyword, Keyword::Group | Keyword::Comdat)
}

/// Tells whether the word is dropped alone.
pub fn is_quiet_word(keyword: Keyword) -> bool
    ensures { result ≡ is_quiet_word keyword }
{
    matches!(keyword, Keyword::Quiet | Keyword::Tail)
}

/// Tells whether the word is outside the language.
pub fn is_outside_word(keyword: Keyword) -> bool
    ensures { result ≡ is_outside_word keyword }
{
    matches!(keyword, Keyword::Outside)
}
