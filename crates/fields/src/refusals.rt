// Why a call is refused: the faults of the input, and all refusals. Each has its number.

ghost use Rattle.std.specs.Prelude.{◌≡◌};
ghost use Rattle.fields.specs.declared.refusals.Refusal.TheVariants.{Input};
ghost use Rattle.fields.specs.Numbers.{fault_number, number_of};

/// A fault of the words of an instance or a sheet. The faulty word nearest the front decides.
#[derive(Clone, Copy, Debug, PartialEq, Eq)]
pub enum Fault {
    /// 1: the first word is not a head, or has more than twelve variables.
    BadHead,
    /// 2: a size or coordinate word is missing, of a wrong kind or out of range.
    BadVariable,
    /// 3: an entry word is of a wrong kind, out of range or out of order, or the last entry is open.
    BadEntry,
    /// 4: a cost above 65,535.
    CostTooHigh,
    /// 5: the 4,097th entry.
    TooManyEntries,
}

/// Why a call is refused: the first of its tests that applies.
#[derive(Clone, Copy, Debug, PartialEq, Eq)]
pub enum Refusal {
    /// 1 to 5: a fault of the input.
    Input(Fault),
    /// 6: a step word that names no permitted pair.
    BadStep,
    /// 7: the plan is no assignment, or the claim does not hold.
    BadClaim,
    /// 8: a variable, a position or a plan of a readout out of range.
    BadReadout,
    /// 9: not a valid table.
    BadTable,
    /// 10: a target that is too short.
    TargetTooShort,
    /// 11: a weight above the greatest of a row.
    WeightTooHigh,
    /// 12: more rows than there is room for.
    TableFull,
    /// 13: a pair is left.
    PairLeft,
    /// 14: fixed values out of range, or not one for each variable.
    BadFixed,
    /// 15: every plan has a forbidden combination.
    Forbidden,
    /// 16: a weight that one word does not hold.
    WeightTooWide,
}

impl Fault {
    /// The number of the fault, 1 to 5.
    pub fn number(self) -> u32
        ensures { result ≡ fault_number self }
    {
        match self {
            Fault::BadHead => 1,
            Fault::BadVariable => 2,
            Fault::BadEntry => 3,
            Fault::CostTooHigh => 4,
            Fault::TooManyEntries => 5,
        }
    }
}

impl Refusal {
    /// The number of the refusal, 1 to 16.
    pub fn number(self) -> u32
        ensures { result ≡ number_of self }
    {
        match self {
            Refusal::Input(fault) => fault.number(),
            Refusal::BadStep => 6,
            Refusal::BadClaim => 7,
            Refusal::BadReadout => 8,
            Refusal::BadTable => 9,
            Refusal::TargetTooShort => 10,
            Refusal::WeightTooHigh => 11,
            Refusal::TableFull => 12,
            Refusal::PairLeft => 13,
            Refusal::BadFixed => 14,
            Refusal::Forbidden => 15,
            Refusal::WeightTooWide => 16,
        }
    }
}

impl From<Fault> for Refusal {
    ghost from_gives = { λ f r. r ≡ Input f };

    fn from(fault: Fault) -> Refusal {
        Refusal::Input(fault)
    }
}
