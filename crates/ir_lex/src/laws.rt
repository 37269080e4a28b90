//! What the definition of tokens settles.

ghost use Rattle.std.specs.Prelude.{◌≡◌, ℕ, List, length};
ghost use Rattle.ir_lex.specs.declared.token.Token.{Token};
ghost use Rattle.ir_lex.specs.Tokens.{AreTokens, IsBad, LieFrom};

/// Proves that a text has at most one token list, at most one place where it is bad, and never both.
pub fn at_most_one_token_list()
    ensures one_list { (text : List ℕ) (toks others : List Token) → AreTokens text toks →
        AreTokens text others → toks ≡ others }
    ensures one_place { (text : List ℕ) (at other : ℕ) → IsBad text at → IsBad text other →
        at ≡ other }
    ensures apart { (text : List ℕ) (toks : List Token) (at : ℕ) → AreTokens text toks →
        IsBad text at → ⊥ }
{}

/// Proves that the tokens of a text lie in it, none of them empty, one after another.
pub fn tokens_lie_in_order()
    ensures { (text : List ℕ) (toks : List Token) → AreTokens text toks →
        LieFrom 0 (length text) toks }
{}
