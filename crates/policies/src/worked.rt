// The worked values that a commissioning sheet quotes.
ghost use Rattle.std.specs.Prelude.{◌≡◌, [], ◌∷◌};
ghost use Rattle.policies.specs.Worked.{WorkedValues};

#[derive(Clone, Copy)]
pub struct Worked {
    // What 1,024 octets cost at urgencies 0 and 7.
    pub charges: [u32; 2],
    // How many frames on end two places with full offers are given in turn: by deficit round robin at urgencies 3 and 7,
    // and by leashed urgency at 0 and 7.
    pub drr: [u8; 4],
    pub urgency: [u8; 6],
}

// The worked values, which the definitions of the charge and of both schedulers give.
pub fn worked_values() -> Worked
    ensures value { (result.charges ≡ 107520 ∷ 860160 ∷ []) × (result.drr ≡ 5 ∷ 1 ∷ 5 ∷ 1 ∷ []) × (result.urgency ≡ 33 ∷ 1 ∷ 8 ∷ 1 ∷ 8 ∷ 1 ∷ []) }
    ensures made { WorkedValues }
{
    Worked {
        charges: [107520, 860160],
        drr: [5, 1, 5, 1],
        urgency: [33, 1, 8, 1, 8, 1],
    }
}
