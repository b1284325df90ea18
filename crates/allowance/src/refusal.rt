// Why an allowance was not set.
ghost use Rattle.std.specs.Prelude.{◌≡◌};
ghost use Rattle.allowance.specs.Refusals.{number_of};

#[derive(Clone, Copy, PartialEq, Eq, Debug)]
pub enum SettingRefusal {
    // The key is above 63.
    NoSuchKey,
    // There would be more than 60 modes or more than 65,535 rules.
    DoesNotFit,
}

impl SettingRefusal {
    // The number by which users know the refusal: what they are told, and no form of it within the program. Callers are promised it by this name.
    pub fn number(&self) -> u8
        ensures { result ≡ number_of self.now }
    {
        match self {
            SettingRefusal::NoSuchKey => 5,
            SettingRefusal::DoesNotFit => 8,
        }
    }
}
