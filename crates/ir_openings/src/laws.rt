//! The laws of openings and of indices.

ghost use Rattle.std.specs.Prelude.{◌≡◌, ◌↔◌, List, ◌∷◌, ℤ, Option};
ghost use Rattle.ir_tree.specs.Shape.{TyShape, NamedTyShape};
ghost use Rattle.ir_rules.specs.Constants.{Opens, StepsBy, Walks};

/// Proves that a type opens to one type at most, that an index leads to one type at most, and that indices
/// lead where the later ones lead from where the first leads.
pub fn indices_lead_to_one_type()
    ensures opens { (ts : List NamedTyShape) (t u v : TyShape) →
        Opens ts t u → Opens ts t v → u ≡ v }
    ensures steps { (ts : List NamedTyShape) (number : Option ℤ) (t u v : TyShape) →
        StepsBy ts number t u → StepsBy ts number t v → u ≡ v }
    ensures walks { (ts : List NamedTyShape) (number : Option ℤ) (numbers : List (Option ℤ))
        (t u : TyShape) → StepsBy ts number t u →
        Walks ts t (number ∷ numbers) ↔ Walks ts u numbers }
{}
