// The kinds of head, the same at both ends of a tank, and their numbers in a survey.
ghost use Rattle.std.specs.Prelude.{◌≡◌};
ghost use Rattle.heads.specs.Kind.{kind_of, KindGiven};

#[derive(Clone, Copy)]
pub enum HeadKind {
    Flat,
    HalfEllipsoid,
    SphericalCap,
}

// A number that no kind has.
#[derive(Clone, Copy)]
pub struct UnknownKind(pub u32);

impl TryFrom<u32> for HeadKind {
    type Error = UnknownKind;

    ghost try_from_gives = { KindGiven };

    #[tactic(auto, unfolding(crate::specs::Kind::kind_known, crate::specs::Kind::kind_of))]
    fn try_from(number: u32) -> Result<Self, UnknownKind> {
        match number {
            0 => Ok(HeadKind::Flat),
            1 => Ok(HeadKind::HalfEllipsoid),
            2 => Ok(HeadKind::SphericalCap),
            _ => Err(UnknownKind(number)),
        }
    }
}

impl HeadKind {
    // The kind of a number that is known, for those who ask where that was tested before: of any other number the last.
    #[tactic(auto, unfolding(crate::specs::Kind::kind_known, crate::specs::Kind::kind_of))]
    pub fn of(number: u32) -> HeadKind
        ensures { result ≡ kind_of number }
    {
        HeadKind::try_from(number).unwrap_or(HeadKind::SphericalCap)
    }
}
