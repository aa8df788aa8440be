//! A range of seeds as the value of an option.
ghost use Rattle.std.specs.Prelude.{◌≡◌, ℕ, [], Some, None, IfOk, IfErr, IfSome, IfNone, OnErr, option_map};
ghost use Rattle.clap.specs.Lexer.{strip_byte};
ghost use Rattle.cli_options.specs.Values.{Gives};
ghost use Rattle.cli_options.specs.declared.options.ValueOption.TheVariants.{Seed, Seeds};
ghost use Rattle.cli_values.specs.Seeds.{first_digits, last_digits, rest_of, IsRange, WritesSeeds};

use cli_options::{RefusedValue, ValueOption, number_of};

/// What stands before the first '.', and what follows it.
fn at_dot(text: &str) -> Option<(&str, &str)>
    ensures some { IfSome result (λ p. (p.0.now ≡ first_digits text.now) × (p.1.now ≡ rest_of text.now)) }
    ensures none { IfNone result (rest_of text.now ≡ []) }
{
    text.split_once('.')
}

/// What follows a '.' that the text begins with.
fn behind_dot(text: &str) -> Option<&str>
    ensures { option_map (λ t. t.now) result ≡ strip_byte 46 text.now }
{
    text.strip_prefix('.')
}

/// What stands before '..', and what stands behind it.
fn parts_of(text: &str) -> Option<(&str, &str)>
    ensures some { IfSome result (λ p. (p.0.now ≡ first_digits text.now) × (last_digits text.now ≡ Some p.1.now)) }
    ensures none { IfNone result (last_digits text.now ≡ None) }
{
    let (first, rest) = at_dot(text)?;
    let last = behind_dot(rest)?;
    Some((first, last))
}

/// The seed that the digits write.
fn seed_of(digits: &str) -> Option<u64>
    ensures some { IfSome result (Gives Seed None (Some digits.now)) }
    ensures none { IfNone result ((n : ℕ) → Gives Seed None (Some digits.now) n → ⊥) }
{
    match number_of(ValueOption::Seed, None, Some(digits)) {
        Ok(seed) => Some(seed),
        Err(_) => None,
    }
}

/// The first seed and the last that the text writes.
fn range_of(text: &str) -> Option<(u64, u64)>
    ensures some { IfSome result (λ r. IsRange text.now r.0 r.1) }
    ensures none { IfNone result ((r : ℕ × ℕ) → IsRange text.now r.0 r.1 → ⊥) }
{
    let (first, last) = parts_of(text)?;
    let first = seed_of(first)?;
    let last = seed_of(last)?;
    if last < first {
        return None;
    }
    Some((first, last))
}

/// The first seed and the last that the text writes; there is no default.
pub fn seeds_of<'a>(text: Option<&'a str>) -> Result<(u64, u64), RefusedValue<'a>>
    ensures ok { IfOk result (WritesSeeds (option_map (λ t. t.now) text.entry)) }
    ensures err { OnErr result ((seeds : ℕ × ℕ) → WritesSeeds (option_map (λ t. t.now) text.entry) seeds → ⊥) }
    ensures refused { IfErr result (λ e. e ≡ record { option = Seeds; given = text.entry }) }
{
    let refused = RefusedValue {
        option: ValueOption::Seeds,
        given: text,
    };
    match text {
        Some(written) => match range_of(written) {
            Some(seeds) => Ok(seeds),
            None => Err(refused),
        },
        None => Err(refused),
    }
}
