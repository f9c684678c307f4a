#![tactic(auto)]

// A drill: an event file, the image that its cut left, recovery steps and power cuts on it, between two steps or inside one. The promise of demand 3, said of
// what the functions return.
ghost use Rattle.std.specs.Prelude.{◌≡◌, ◌<◌, cond};
ghost use Rattle.rules.specs.Access.{is_set};
ghost use Rattle.rules.specs.Recovery.{Recovering};
ghost use Rattle.torn.specs.Torn.{mixed, torn_act};
ghost use Rattle.drill.specs.Drilled.{Drilled, Recovered, act_of, after_acts, choice_of, cut_inside, torn_of};

use measures::Line;
use rules::Answer;

/// What a drill found: the answer to the save, and the answer to the last recovery step.
#[derive(Clone, Copy)]
pub struct DrillAnswers {
    pub saved: Answer,
    pub last: Answer,
}

/// An act on an image.
#[derive(Clone, Copy)]
enum Act {
    /// A recovery step.
    Step,
    /// A power cut between two steps.
    CutBetween,
    /// A power cut inside a step, by which the words whose bit is set had been restored.
    CutInside(u8),
}

/// 255 is a recovery step. Any other byte is a power cut: 0 between two steps, else inside one, with a bit for each word.
impl From<u8> for Act {
    ghost from_gives = { λ b a. torn_of a ≡ act_of b };

    // Kept: these bytes are what `act_of` of specs/ names.
    #[tactic(auto, unfolding(crate::specs::Drilled::act_of))]
    fn from(byte: u8) -> Act {
        match byte {
            0 => Act::CutBetween,
            255 => Act::Step,
            words => Act::CutInside(words),
        }
    }
}

// Word `word` of `old` where its bit is set, else that of `now`.
fn chosen(words: u8, word: usize, now: u64, old: u64) -> u64
    requires { word < 8 }
    ensures { result ≡ cond (is_set word words) old now }
{
    if (words >> word) % 2 == 1 { old } else { now }
}

// The line with those words of `old` whose bit is set.
#[tactic(auto, using(crate::proofs::Inside::mixed_more))]
fn mixed_line(words: u8, now: Line, old: Line) -> Line
    ensures { result ≡ mixed (choice_of words) 0 now old }
{
    let mut line = now;
    for (word, value) in line.iter_mut().enumerate() {
        *value = chosen(words, word, *value, old[word]);
    }
    line
}

// Power is lost inside a recovery step: of the line that it restores only the words whose bit is set are back.
fn cut_inside(image: &mut [u8], at: u64, words: u8)
    ensures { image.new ≡ cut_inside image.old at words }
{
    match recovery::next_entry(image, at, false) {
        Ok(Some(next)) => {
            let start = recovery::line_start(next.line);
            let now = lines::take_line(image, start);
            lines::put_line_at(image, start, mixed_line(words, now, next.old));
        }
        Ok(None) => {}
        Err(_) => {}
    }
}

// One act at a place, and the place behind it. A power cut sets the place to 0.
fn acted(image: &mut [u8], at: u64, act: Act) -> u64
    ensures { ◌≡◌ {A = Recovering} (record { bytes = image.new; at = result }) (torn_act (record { bytes = image.old; at = at }) (torn_of act)) }
{
    match act {
        Act::Step => recovery::step_at(image, at, false).at,
        Act::CutBetween => 0,
        Act::CutInside(words) => {
            cut_inside(image, at, words);
            0
        }
    }
}

// The acts one by one on an image, from place 0 on.
#[tactic(auto, using(crate::proofs::Laws::acts_more, crate::proofs::Laws::acts_none))]
fn act_all(image: &mut [u8], acts: &[u8]) -> u64
    ensures { ◌≡◌ {A = Recovering} (record { bytes = image.new; at = result }) (after_acts image.old 0 acts.now) }
{
    let mut at = 0;
    for &byte in acts {
        at = acted(image, at, Act::from(byte));
    }
    at
}

/// The acts on an image of any bytes, a byte each, and one more recovery step; on every image that the words of data flights may have left at a cut, the answer meets
/// demand 3. 255 is a recovery step, 0 a power cut between two steps, any other byte one inside a step, by which the words of its bits had been restored.
pub fn recover(image: &mut [u8], acts: &[u8]) -> Answer
    ensures { Recovered image.old acts.now image.new result }
{
    let at = act_all(image, acts);
    recovery::step_at(image, at, false).answer
}

/// An event file over lent memory, the image that its cut left, the acts on that image, and one more recovery step.
// Kept: the C interface: `board_image` hands on this `Answer`.
pub fn drill(file: &[u8], memory: &[u8], acts: &[u8], image: &mut [u8]) -> DrillAnswers
    ensures { Drilled file.now memory.now acts.now image.old image.new result }
{
    let saved = files::run_image(file, memory, image);
    if saved.refusal != 0 {
        return DrillAnswers { saved, last: saved };
    }
    let size = saved.value as usize;
    let last = recover(&mut image[..size], acts);
    DrillAnswers { saved, last }
}
