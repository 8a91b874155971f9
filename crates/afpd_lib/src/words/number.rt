//! Numbers, as words spell them.
ghost use Rattle.std.specs.Prelude.{ℕ, ◌<◌, ◌^◌, IfOk, IsErrOf};
ghost use Rattle.afpd_lib.specs.words.Words.{SpellsNumber};

use crate::words::read::WordFault;

/// The number that decimal digits spell; leading zeros and a plus sign before them count for nothing.
pub fn number_of(text: &str) -> Result<u64, WordFault>
    ensures found { IfOk result (λ number. SpellsNumber text.now number) }
    ensures bad { IsErrOf result WordFault.Bad → (number : ℕ) → number < 2 ^ 64 → SpellsNumber text.now number → ⊥ }
{
    match text.parse::<u64>() {
        Ok(number) => Ok(number),
        Err(_) => Err(WordFault::Bad),
    }
}
