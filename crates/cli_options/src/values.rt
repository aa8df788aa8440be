//! The values of options as they are written.
ghost use Rattle.std.specs.Prelude.{◌≡◌, ◌^◌, ◌<◌, ℕ, Option, IfSome, IfNone, IfOk, IfErr, OnErr, option_map};
ghost use Rattle.cli_options.specs.Values.{WritesBase, Writes, WritesFlag, GivesBase, Gives, GivesOptional};
ghost use Rattle.cli_options.specs.declared.options.ValueOption.TheVariants.{Base};

use crate::options::ValueOption;
use crate::refused::RefusedValue;

/// A number in 1 to 16 hexadecimal digits, 0 where none is given.
fn hexadecimal_of(text: Option<&str>) -> Option<u64>
    ensures some { IfSome result (WritesBase (option_map (λ t. t.now) text.entry)) }
    ensures none { IfNone result ((n : ℕ) → n < 2 ^ 64 → WritesBase (option_map (λ t. t.now) text.entry) n → ⊥) }
{
    let Some(text) = text else {
        return Some(0);
    };
    if text.len() > 16 || text.as_bytes().starts_with(b"+") {
        return None;
    }
    u64::from_str_radix(text, 16).ok()
}

/// A number in decimal digits, the default where none is given.
fn decimal_of(default: Option<u64>, text: Option<&str>) -> Option<u64>
    ensures some { IfSome result (Writes default (option_map (λ t. t.now) text.entry)) }
    ensures none { IfNone result ((n : ℕ) → n < 2 ^ 64 → Writes default (option_map (λ t. t.now) text.entry) n → ⊥) }
{
    let Some(text) = text else {
        return default;
    };
    if text.as_bytes().starts_with(b"+") {
        return None;
    }
    text.parse().ok()
}

/// The first address of a memory, 0 where none is given; that the memory ends at 2^64 or before is not looked at.
pub fn base_of<'a>(text: Option<&'a str>) -> Result<u64, RefusedValue<'a>>
    ensures ok { IfOk result (GivesBase (option_map (λ t. t.now) text.entry)) }
    ensures err { OnErr result ((n : ℕ) → GivesBase (option_map (λ t. t.now) text.entry) n → ⊥) }
    ensures refused { IfErr result (λ e. e ≡ record { option = Base; given = text.entry }) }
{
    match hexadecimal_of(text) {
        Some(base) if ValueOption::Base.allowed().has(base) => Ok(base),
        _ => Err(RefusedValue {
            option: ValueOption::Base,
            given: text,
        }),
    }
}

/// The number that the option's value writes in decimal digits, or the default where none is given and there is one:
/// a number that the option may have.
pub fn number_of<'a>(
    option: ValueOption,
    default: Option<u64>,
    text: Option<&'a str>,
) -> Result<u64, RefusedValue<'a>>
    ensures ok { IfOk result (Gives option default (option_map (λ t. t.now) text.entry)) }
    ensures err { OnErr result ((n : ℕ) → Gives option default (option_map (λ t. t.now) text.entry) n → ⊥) }
    ensures refused { IfErr result (λ e. e ≡ record { option = option; given = text.entry }) }
{
    match decimal_of(default, text) {
        Some(number) if option.allowed().has(number) => Ok(number),
        _ => Err(RefusedValue {
            option,
            given: text,
        }),
    }
}

/// The number that the option's value writes in decimal digits, if it is given: a number that the option may have.
pub fn optional_of<'a>(
    option: ValueOption,
    text: Option<&'a str>,
) -> Result<Option<u64>, RefusedValue<'a>>
    ensures ok { IfOk result (GivesOptional option (option_map (λ t. t.now) text.entry)) }
    ensures err { OnErr result ((n : Option ℕ) → GivesOptional option (option_map (λ t. t.now) text.entry) n → ⊥) }
    ensures refused { IfErr result (λ e. e ≡ record { option = option; given = text.entry }) }
{
    match text {
        Some(_) => Ok(Some(number_of(option, None, text)?)),
        None => Ok(None),
    }
}

/// Whether a flag is set, by its value.
pub fn is_set(text: Option<&str>) -> bool
    ensures { WritesFlag (option_map (λ t. t.now) text.entry) result }
{
    match text {
        Some(text) => text == "true",
        None => false,
    }
}
