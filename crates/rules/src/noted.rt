// Kinds that are noted: one more, and whether none is noted twice.
ghost use Rattle.std.specs.Prelude.{◌≡◌, true, length, set};
ghost use Rattle.rules.specs.Rules.{is_apart};

// Notes a kind.
pub fn note(noted: &mut [bool; 256], k: u8)
    ensures { noted.new ≡ set noted.old k true }
{
    noted[k as usize] = true;
}

// No kind that is noted here is noted there.
pub fn are_apart(owners: &[bool; 256], used: &[bool; 256]) -> bool
    requires { (length owners.now ≡ 256) × (length used.now ≡ 256) }
    ensures { result ≡ is_apart owners.now used.now }
{
    !owners.iter().zip(used.iter()).any(|(o, u)| *o & *u)
}
