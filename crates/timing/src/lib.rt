// Reads a text again and again, for the programs of bench/ to time. Nothing else uses it.
#![tactic(auto)]

use rows::{MOST_TERMS, MOST_TYPES, TermRow, TypeRow};
use text::OpenForm;

// Reads `rule` so many times, with so many type rows and term rows at most, and answers how many rows the readings
// made in all.
#[unsafe(no_mangle)]
pub extern "C" fn read_again(rule: &[u8], times: u32, types: u32, terms: u32) -> u64 {
    let mut type_rows = [TypeRow::ZERO; MOST_TYPES];
    let mut term_rows = [TermRow::ZERO; MOST_TERMS];
    let mut opens = [OpenForm::TermWord; 4_096];
    let types = &mut type_rows[..(types as usize).min(MOST_TYPES)];
    let terms = &mut term_rows[..(terms as usize).min(MOST_TERMS)];
    (0..times)
        .filter_map(|_| text::read(rule, types, terms, &mut opens).ok())
        .fold(0, |made: u64, counts| {
            made.wrapping_add(counts.types as u64)
                .wrapping_add(counts.terms as u64)
        })
}
