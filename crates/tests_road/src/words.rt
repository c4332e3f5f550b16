//! Words worked out by hand, published, or computed by another program.

mod chacha_words;

use crate::assert_row;
use chacha_words::{CHACHA_WORDS, ZERO_KEY};
use road_plan::{PlanFault, WordKind};
use road_words::{ChaChaWords, PlanWords, SteadyWords, Words};
use std::alloc::Global;
use std::test::Fail;
use tests_plans::{FREE, Parts, plan_of};

/// Return a word of any source of words.
fn word_of<W: Words>(words: &W, stream: u64, place: u64) -> u32 {
    words.word(stream, place)
}

/// Stream, place, the upper 16 bits of the steady word, and the whole word.
const STEADY_WORDS: &[(u64, u64, u32, u32)] = &[
    (0, 0, 0, 0),
    (1, 0, 40_503, 2_654_404_608),
    (48, 5, 62_583, 4_101_439_488),
    (9_223_372_036_854_775_811, 1, 20_448, 1_340_080_128),
];

#[test]
fn steady_words_are_as_worked_out(rt: HostRuntime) {
    for (row, (stream, place, upper, want)) in STEADY_WORDS.iter().enumerate() {
        let word = word_of(&SteadyWords, *stream, *place);
        assert_row(&rt, row, word == *want && word >> 16 == *upper);
    }
}

#[test]
fn seed_zero_gives_the_published_keystream(rt: HostRuntime) {
    let words = ChaChaWords::new(0);
    for (place, printed) in ZERO_KEY.iter().enumerate() {
        // a word is made of its four bytes with the last one first
        let word = word_of(&words, 0, place as u64);
        assert_row(&rt, place, word == printed.swap_bytes());
    }
}

#[test]
fn seeded_words_are_those_of_another_program(rt: HostRuntime) {
    for (row, (seed, stream, place, want)) in CHACHA_WORDS.iter().enumerate() {
        let word = word_of(&ChaChaWords::new(*seed), *stream, *place);
        assert_row(&rt, row, word == *want);
    }
}

/// The kind of words of a plan, and the word at place 1 of stream 16.
const SELECTED_WORDS: &[(WordKind, u32)] = &[
    (WordKind::Seeded(7), 2_155_941_584),
    (WordKind::Seeded(1_992), 1_000_473_906),
    // 16 * 40,503 + 30,011 is 678,059, which is 22,699 modulo 65,536; this is then multiplied by 65,536
    (WordKind::Steady, 1_487_601_664),
];

// Return the word at place 1 of stream 16 of a plan with these words.
fn selected_word(alloc: Global, words: WordKind) -> Result<u32, PlanFault> {
    let plan = plan_of(alloc, &Parts { words, ..FREE })?;
    Ok(word_of(&PlanWords::of(&plan), 16, 1))
}

#[test]
fn a_plan_selects_its_words(rt: HostRuntime) -> Result<(), Fail> {
    for (row, (words, want)) in SELECTED_WORDS.iter().enumerate() {
        assert_row(&rt, row, selected_word(rt.alloc(), *words)? == *want);
    }
    Ok(())
}
