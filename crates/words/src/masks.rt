// Legality masks (01 The terminal). Meaning: specs/Masks.antt. Refusals: none.
ghost use Rattle.std.specs.Prelude.{◌≡◌};
ghost use Rattle.words.specs.Masks.{mask_allows};

// Says whether the mask's bit makes the count code legal. A code past 31 has no bit.
// Tables: none. Refusals: none.
pub fn mask_allows(mask: u32, code: u16) -> bool
    ensures answer { result ≡ mask_allows mask code }
{
    if code < 32 {
        (mask >> code) & 1 == 1
    } else {
        false
    }
}
