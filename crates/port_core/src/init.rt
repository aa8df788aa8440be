//! Flow-control initialization of VC0 (PCI Express Base 4.0, sections 3.2 and 3.4).
ghost use Rattle.std.specs.Prelude.{◌≡◌};
ghost use Rattle.port_core.specs.Init as spec;

use dllp_core::Class;
use flow_control::LaneCredits;

/// The state of a port: the standard's DL_Inactive, DL_Init in its two parts, and DL_Active.
#[derive(Clone, Copy, Debug, PartialEq)]
pub enum LinkState {
    /// The physical layer reports that the link is down.
    Inactive,
    /// DL_Init in FC_INIT1: the peer's credits are not all known.
    Init1,
    /// DL_Init in FC_INIT2: they are, and the peer is not yet known to have the port's.
    Init2,
    /// TLPs are sent and received.
    Active,
}

/// The credits of a class that an InitFC advertises. 0 is infinite.
#[derive(Clone, Copy, PartialEq)]
pub struct FirstCredits {
    /// HdrFC, in header units.
    pub header: u8,
    /// DataFC, in data units of 16 bytes.
    pub units: u16,
}

/// What the peer advertised so far.
#[derive(Clone, Copy)]
pub struct Advertised {
    pub posted: Option<FirstCredits>,
    pub non_posted: Option<FirstCredits>,
    pub completion: Option<FirstCredits>,
}

/// The first value stays.
fn first_kept(old: Option<FirstCredits>, new: FirstCredits) -> Option<FirstCredits>
    ensures { result ≡ spec.first_kept old new }
{
    match old {
        None => Some(new),
        Some(first) => Some(first),
    }
}

fn or_infinite(first: Option<FirstCredits>) -> FirstCredits
    ensures { result ≡ spec.or_infinite first }
{
    match first {
        None => FirstCredits {
            header: 0,
            units: 0,
        },
        Some(first) => first,
    }
}

impl FirstCredits {
    /// Whether an InitFC may advertise them: at most 127 headers and 2047 data units.
    pub fn is_allowed(&self) -> bool
        ensures { result ≡ spec.is_allowed self.now }
    {
        self.header <= 127 && self.units <= 2047
    }

    /// The credits of a class.
    pub fn of(credits: LaneCredits, class: Class) -> FirstCredits
        ensures { result ≡ spec.first_of credits class }
    {
        match class {
            Class::Posted => FirstCredits {
                header: credits.ph,
                units: credits.pd,
            },
            Class::NonPosted => FirstCredits {
                header: credits.nph,
                units: credits.npd,
            },
            Class::Completion => FirstCredits {
                header: credits.cplh,
                units: credits.cpld,
            },
        }
    }

    /// Whether the headers or the data are finite: only then the class has updates.
    pub fn is_finite(&self) -> bool
        ensures { result ≡ spec.is_finite self.now }
    {
        self.header != 0 || self.units != 0
    }
}

impl Advertised {
    /// Nothing was advertised.
    pub fn nothing() -> Advertised
        ensures { result ≡ spec.nothing_advertised }
    {
        Advertised {
            posted: None,
            non_posted: None,
            completion: None,
        }
    }

    /// Records the credits of a class, unless there are some already.
    pub fn record(&mut self, class: Class, new: FirstCredits)
        ensures { self.new ≡ spec.advertised_with self.old class new }
    {
        match class {
            Class::Posted => self.posted = first_kept(self.posted, new),
            Class::NonPosted => self.non_posted = first_kept(self.non_posted, new),
            Class::Completion => self.completion = first_kept(self.completion, new),
        }
    }

    /// Flag FI1: the credits of all three classes are recorded.
    pub fn fi1(&self) -> bool
        ensures { result ≡ spec.fi1 self.now }
    {
        self.posted.is_some() && self.non_posted.is_some() && self.completion.is_some()
    }

    /// The credits, infinite where none are recorded.
    pub fn credits(&self) -> LaneCredits
        ensures { result ≡ spec.credits_of self.now }
    {
        let posted = or_infinite(self.posted);
        let non_posted = or_infinite(self.non_posted);
        let completion = or_infinite(self.completion);
        LaneCredits {
            ph: posted.header,
            pd: posted.units,
            nph: non_posted.header,
            npd: non_posted.units,
            cplh: completion.header,
            cpld: completion.units,
        }
    }
}

impl LinkState {
    /// DL_Up: packets are received.
    pub fn is_up(self) -> bool
        ensures { result ≡ spec.is_up self }
    {
        self == LinkState::Init2 || self == LinkState::Active
    }

    /// The state after what sets Flag FI2: a TLP, an InitFC2 or an UpdateFC.
    pub fn activated(self) -> LinkState
        ensures { result ≡ spec.activated self }
    {
        match self {
            LinkState::Init2 => LinkState::Active,
            state => state,
        }
    }
}
