// What a call answers where it has no result: which layer refused, on what ground, and at which place.
ghost use Rattle.std.specs.Prelude.{◌≡◌, ◌==◌};
ghost use Rattle.marks.specs.Faults.{fault_of};
ghost use Rattle.marks.specs.Numbers.{layer_number, ground_number};
ghost use Rattle.std.specs.Cmp.Rules.{comparing};
ghost use Rattle.std.proofs.Common.{rules};
ghost use Rattle.std.specs.Cmp as Keys;

#[derive(Clone, Copy, Debug, PartialEq, Eq)]
pub enum Layer {
    Source = 1,
    Blanks = 2,
    Reader = 3,
    List = 4,
}

#[derive(Clone, Copy, Debug, Eq)]
pub enum Ground {
    AddressWithoutAt = 10,
    StraySemicolon = 11,
    NestedGroup = 12,
    UnclosedGroup = 13,
    WordAfterBackslash = 14,
    WordInBrackets = 15,
    WordAfterBrackets = 16,
    CharAfterBrackets = 17,
    UnfinishedEntry = 18,
    DeepComment = 19,
    LongName = 20,
    LongAddress = 21,
    TooManyMarks = 22,
    FullList = 23,
    IllFormedUtf8 = 24,
    PartOutsideText = 30,
    UnknownKind = 31,
    NotBlank = 32,
    RawLineEnd = 33,
    StrayWordChar = 34,
    LongRun = 35,
    LongText = 40,
    UnwritableAddress = 42,
    NoSuchEntry = 43,
    NotAGroup = 44,
    NoSuchMember = 45,
    ShortBuffer = 46,
}

#[derive(Clone, Copy, Debug, PartialEq, Eq)]
pub struct Fault {
    pub layer: Layer,
    pub ground: Ground,
    pub place: usize,
}

impl Layer {
    // What this layer answers that refuses on `ground` at `place`.
    pub fn fault(self, ground: Ground, place: usize) -> Fault
        ensures { result ≡ fault_of self ground place }
    {
        Fault {
            layer: self,
            ground,
            place,
        }
    }
}

impl From<Layer> for u8 {
    ghost from_gives = { λ l n. n ≡ layer_number l };

    fn from(layer: Layer) -> u8 {
        layer as u8
    }
}

impl From<Ground> for u8 {
    ghost from_gives = { λ g n. n ≡ ground_number g };

    fn from(ground: Ground) -> u8 {
        ground as u8
    }
}

// Grounds are the same where their numbers are. By hand, so that the promise by the numbers of the table stands here and a wrong
// comparison is refused: a derived one has no body that could go wrong.
impl PartialEq for Ground {
    ghost eq = { λ a b. (ground_number a == ground_number b) };

    ghost laws = { Keys.partial_equiv_from_equiv (Prim.search (comparing, rules)) };

    fn eq(&self, other: &Ground) -> bool {
        u8::from(*self) == u8::from(*other)
    }
}
