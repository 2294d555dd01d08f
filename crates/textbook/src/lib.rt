// What the definitions of algebra and filtering are by the textbook, in specs/: in any exact arithmetic, and at rounded
// binary64. The only function is a promise: it does nothing, and the crate is not proved without what its contract states.
#![tactic(auto)]

ghost use contract.Monad.{fact};
ghost use Rattle.textbook.specs.Textbook.{Textbook};

// The statements quantify over all types of numbers, so theirs is `Type 1`: `fact 𝓤` is ⌜ ⌝ at any level of types.
pub fn textbook()
    ensures* { fact 𝓤 Textbook }
{}
