// What every refusal has: its number in docs/REFUSALS.md.
#![tactic(auto)]

ghost use Rattle.std.specs.Prelude.{◌≡◌, ℕ};
ghost use Rattle.refusal.specs.Numbers.{IsRefusal, AreRefusals};

// Why a call refuses.
pub trait Refusal {
    ghost code: { Self → ℕ };

    fn number(self) -> u8
        ensures { result ≡ code self };

    // Never 0, which is acceptance.
    ghost in_range: { (fault : Self) → IsRefusal (code fault) };
}

// Every kind of refusal has numbers from 1 to 13.
pub fn refusals_are_numbered<R: Refusal>()
    ensures { AreRefusals R.code }
{}
