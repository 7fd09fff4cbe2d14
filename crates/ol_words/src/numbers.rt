//! The numbers of a command line.

ghost use Rattle.std.specs.Prelude.{◌≡◌, option_map, Some, None, if◌then◌else◌};
ghost use Rattle.std.specs.Str.Parse.{digits_value};
ghost use Rattle.ol_words.specs.Settings.{from_to, is_number, number_within};
ghost use Rattle.ol_words.specs.Found.{setting_by};

/// The numbers that a setting may have.
#[derive(Clone, Copy)]
pub struct Limits {
    /// The least number.
    pub least: u32,
    /// The greatest number.
    pub most: u32,
    /// The number without the option.
    pub default: u32,
}

impl Limits {
    /// The numbers from the least to the most, with the default.
    pub(crate) fn new(least: u32, most: u32, default: u32) -> Limits
        ensures { result ≡ from_to least most default }
    {
        Limits {
            least,
            most,
            default,
        }
    }
}

/// What a setting is by its value, if it has one: None where that is no number within the limits.
pub(crate) fn setting_by(value: Option<&str>, limits: Limits) -> Option<u32>
    ensures { result ≡ setting_by limits (option_map (λ v. v.now) value.entry) }
{
    match value {
        None => Some(limits.default),
        Some(text) => number_within(text.as_bytes(), limits),
    }
}

/// The number of 1 to 8 ASCII digits, where it lies within the limits.
pub(crate) fn number_within(text: &[u8], limits: Limits) -> Option<u32>
    ensures { result ≡ number_within limits text.now }
{
    let number = number_in(text)?;
    if limits.least <= number && number <= limits.most {
        Some(number)
    } else {
        None
    }
}

// The number that 1 to 8 ASCII digits write.
fn number_in(text: &[u8]) -> Option<u32>
    ensures { result ≡ (if is_number text.now then Some (digits_value 10 text.now) else None) }
{
    if text.is_empty() || text.len() > 8 {
        return None;
    }
    let mut number: u32 = 0;
    for place in 0..text.len() {
        if !text[place].is_ascii_digit() {
            return None;
        }
        number = number * 10 + (text[place] - b'0') as u32;
    }
    Some(number)
}
