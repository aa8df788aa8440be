//! Which option's value is refused, for people.
use crate::options::{Allowed, ValueOption};
use crate::shown::Shown;
use seq_memory::MAX_SIZE;
use std::fmt;
use tlp_core::REQUESTERS;

/// An option whose value is refused.
#[derive(Clone, Copy)]
pub struct RefusedValue<'a> {
    /// Which option.
    pub option: ValueOption,
    /// The value as it is written, none where the option is not given.
    pub given: Option<&'a str>,
}

impl fmt::Display for RefusedValue<'_> {
    /// The value, the option, and what is expected of it.
    fn fmt<W: fmt::Write>(&self, f: &mut fmt::Formatter<W>) -> fmt::Result {
        let RefusedValue { option, given } = *self;
        let (name, allowed) = (option.name(), option.allowed());
        if option == ValueOption::Crc {
            return write!(f, "--{name} goes with --link");
        }
        if option == ValueOption::Draw {
            return write!(f, "--{name} doesn't go with --core");
        }
        match given {
            Some(value) => {
                let shown = Shown::first(value.as_bytes());
                write!(f, "invalid value '{shown}' for --{name}: expected ")?;
            }
            None => write!(f, "--{name} is missing: expected ")?,
        }
        match option {
            ValueOption::Base => {
                let Allowed { unit, .. } = allowed;
                write!(
                    f,
                    "1 to 16 hexadecimal digits, a multiple of {unit:X}h; the memory ends at 2^64 or below"
                )
            }
            ValueOption::Block => {
                let Allowed { least, most, .. } = allowed;
                write!(f, "{least} or {most}")
            }
            ValueOption::Lane => write!(
                f,
                "up1 to up{REQUESTERS}, down1 to down{REQUESTERS}, in or out"
            ),
            ValueOption::Granularity => f.write_str("4, 8, 16, 64 or whole"),
            ValueOption::EndpointSize => write!(f, "a power of two from 4096 to {MAX_SIZE}"),
            ValueOption::Id => f.write_str("four hexadecimal digits, ':' and four more"),
            ValueOption::Credits => f.write_str(
                "with --link PH,PD,NPH,NPD: 1 to 127, 8 to 2047, 1 to 127 and 2 to 2047",
            ),
            ValueOption::To => write!(f, "{allowed}, at least --from"),
            ValueOption::Seeds => write!(f, "FIRST..LAST, each {allowed}, LAST at least FIRST"),
            _ => write!(f, "{allowed}"),
        }
    }
}
