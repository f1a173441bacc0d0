//! The scan of a line's numbers, byte by byte.

ghost use Rattle.std.specs.Prelude.{◌≡◌};
ghost use Rattle.line_protocol.specs.Scanning.{is_whole, next_figure, next_follower, next_scan};

/// How far a coordinate, a level or a line's number has come.
#[derive(Clone, Copy, Debug, PartialEq, Eq)]
pub(crate) enum Figure {
    Start,
    Minus,
    /// Its first digits. So many more may come.
    Digits(u8),
    Point,
    /// Its first decimals. So many more may come.
    Decimals(u8),
    /// The start of a line's number.
    IdStart,
    /// The first digits of a line's number. So many more may come.
    IdDigits(u8),
}

/// What comes after the number that is scanned.
#[derive(Clone, Copy, Debug, PartialEq, Eq)]
pub(crate) enum Follower {
    TwoNumbers,
    OneNumber,
    Nothing,
    /// An easting, and then pairs or nothing.
    Easting,
    /// Pairs or nothing.
    Pairs,
}

/// How far numbers parted by spaces have come.
#[derive(Clone, Copy, Debug, PartialEq, Eq)]
pub(crate) struct Scan {
    figure: Figure,
    follower: Follower,
}

impl Figure {
    // How far it has come with this byte, where it is allowed.
    fn after(self, b: u8) -> Option<Figure>
        ensures { result ≡ next_figure self b }
    {
        match self {
            Figure::Start if b == b'-' => Some(Figure::Minus),
            Figure::Start | Figure::Minus if b.is_ascii_digit() => Some(Figure::Digits(8)),
            Figure::Digits(more) if more > 0 && b.is_ascii_digit() => Some(Figure::Digits(
                more - 1,
            )),
            Figure::Digits(_) if b == b'.' => Some(Figure::Point),
            Figure::Point if b.is_ascii_digit() => Some(Figure::Decimals(2)),
            Figure::Decimals(more) if more > 0 && b.is_ascii_digit() => Some(Figure::Decimals(
                more - 1,
            )),
            Figure::IdStart if b > b'0' && b.is_ascii_digit() => Some(Figure::IdDigits(7)),
            Figure::IdDigits(more) if more > 0 && b.is_ascii_digit() => Some(Figure::IdDigits(
                more - 1,
            )),
            _ => None,
        }
    }

    // Whether a number may end here.
    fn is_whole(self) -> bool
        ensures { result ≡ is_whole self }
    {
        match self {
            Figure::Digits(_) | Figure::Decimals(_) | Figure::IdDigits(_) => true,
            Figure::Start | Figure::Minus | Figure::Point | Figure::IdStart => false,
        }
    }
}

impl Follower {
    // What comes after the next number.
    fn after(self) -> Option<Follower>
        ensures { result ≡ next_follower self }
    {
        match self {
            Follower::TwoNumbers => Some(Follower::OneNumber),
            Follower::OneNumber => Some(Follower::Nothing),
            Follower::Nothing => None,
            Follower::Easting => Some(Follower::Pairs),
            Follower::Pairs => Some(Follower::Easting),
        }
    }
}

impl Scan {
    /// The start of `N E Z`.
    pub(crate) const SPOT: Scan = Scan {
        figure: Figure::Start,
        follower: Follower::TwoNumbers,
    };

    /// The start of `N E`.
    pub(crate) const PLACE: Scan = Scan {
        figure: Figure::Start,
        follower: Follower::OneNumber,
    };

    /// The start of `Z`.
    pub(crate) const LEVEL: Scan = Scan {
        figure: Figure::Start,
        follower: Follower::Nothing,
    };

    /// The start of one pair `N E` or more.
    pub(crate) const PLACES: Scan = Scan {
        figure: Figure::Start,
        follower: Follower::Easting,
    };

    /// The start of a line's number.
    pub(crate) const ID: Scan = Scan {
        figure: Figure::IdStart,
        follower: Follower::Nothing,
    };

    /// How far the numbers have come with this byte, where it is allowed.
    pub(crate) fn after(self, b: u8) -> Option<Scan>
        ensures { result ≡ next_scan self b }
    {
        if b != b' ' {
            let figure = self.figure.after(b)?;
            return Some(Scan {
                figure,
                follower: self.follower,
            });
        }
        if !self.figure.is_whole() {
            return None;
        }
        let follower = self.follower.after()?;
        Some(Scan {
            figure: Figure::Start,
            follower,
        })
    }
}
