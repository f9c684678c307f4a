#![tactic(auto)]

// Laws about the board that crate rules defines, each for every list of event records; about images of any content; and about the calls of a bench.
// Each function has no body: its contract is the law.
ghost use Rattle.laws.specs.Bench.{BenchRecovers};
ghost use Rattle.laws.specs.Causes.{CausesMatter};
ghost use Rattle.laws.specs.Images.{FinishedLast, RecoveryAnswers, WalkWhole};
ghost use Rattle.laws.specs.Laws.{CommitsAddUp, CommittedEnded, CutCounts, FenceOutside, FenceTells, NothingLeft, OneFlight, ReadGives};
ghost use Rattle.laws.specs.Channels.{TwoChannels};
ghost use Rattle.laws.specs.Neighbours.{FourNeighbours};
ghost use Rattle.laws.specs.Pass.{PassTells};
ghost use Rattle.laws.specs.Serial.{SerialReads};
ghost use Rattle.laws.specs.Reserves.{NoReserves, Reserved, SetupRead, SharesTested};
ghost use Rattle.laws.specs.Stores.{MaskTested, StoresBytes, WholeWord, WritesRead};

// Between two events nothing is left over: no slot that could fly waits, every ended region without slots is done, no done region without dependences is listed.
pub fn nothing_is_left()
    ensures { NothingLeft }
{}

// At most one flight per line exists.
pub fn one_flight()
    ensures { OneFlight }
{}

// A read gives the word of the starting memory with the accepted writes before it.
pub fn read_gives()
    ensures { ReadGives }
{}

// The values that tell commits add up to the number of committed regions.
pub fn commits_add_up()
    ensures { CommitsAddUp }
{}

// A cut gives the number of regions opened and not committed.
pub fn cut_counts()
    ensures { CutCounts }
{}

// A fence gives 1 exactly when every region that its thread opened, other than the one open now, is committed.
pub fn fence_tells()
    ensures { FenceTells }
{}

// Outside a region a fence is what document 01 says, on any tables.
pub fn fence_outside()
    ensures { FenceOutside }
{}

// A record of kind 10 is a write with its mask, one of kind 4 a write with all bits set; kind 9 is unknown.
pub fn writes_are_read()
    ensures { WritesRead }
{}

// A mask 0 is refused with 27, after 5 and before 11. In all else a write depends on its mask only in the bytes that it stores.
pub fn mask_is_tested()
    ensures { MaskTested }
{}

// Each byte of current memory, and of the memory that recovery finds, is that of the last write that stores it, or as it was at the start.
pub fn bytes_are_stored()
    ensures { StoresBytes }
{}

// With all bits set a word is stored whole.
pub fn whole_word_is_stored()
    ensures { WholeWord }
{}

// A setup has 13 bytes of body; behind L stand the party of each thread and the reserve of each party, in their order.
pub fn setup_is_read()
    ensures { SetupRead }
{}

// A setup is refused with 24, after 6, exactly for parties and reserves that it may not carry.
pub fn shares_are_tested()
    ensures { SharesTested }
{}

// With reserves 0 a begin has the tests of document 01, the last of them for its channel; the tests of other events and the image do not look at parties and
// reserves that stand.
pub fn no_reserves_change_nothing()
    ensures { NoReserves }
{}

// A party below its reserve in a channel never meets 16 at a begin whose number falls there, whatever the other did; 16 comes only where no entry of the
// channel is free that is not kept for the other party, and there no begin opens a region.
pub fn reserves_hold()
    ensures { Reserved }
{}

// Every region listed is in the channel of its number, at most 16 in each; a lookup by the channel finds what a search of both would find; a begin that is
// accepted has a free place; a cut counts both channels, and no byte of an image is of a channel.
pub fn channels_are_kept()
    ensures { TwoChannels }
{}

// The count of every waiting slot is the number of different other lines that its region has written since its last write of the slot's line, up to 4; a line
// of a region that has not ended flies after four only. The different lines of a region are each line that it wrote once, last written first.
pub fn counts_are_kept()
    ensures { FourNeighbours }
{}

// One pass over the slots of a region gives a write what a search for its line and another for an empty slot give, whatever the slots are. For every list: a
// write is refused with 20 only where the pass finds no slot, and it is accepted only where it finds one; that slot then waits with count 0, and every other
// has the count that the pass gave it. Of a region's slots no two are of the same line.
pub fn pass_tells()
    ensures { PassTells }
{}

// Every accepted read of a committed region gives the word that it would see if the committed regions ran one after another in the order they ended: the starting
// memory with the writes of those that ended before it, then its own earlier writes. A write is refused with 25 only where the open region of another thread has
// read the line, and accepted only where none has; 25 comes behind 17 and before 18 to 21.
pub fn reads_are_serial()
    ensures { SerialReads }
{}

// The committed regions are the ended ones that are listed no more.
pub fn committed_is_ended()
    ensures { CommittedEnded }
{}

// A recovery step, on an image of any content, answers 0, 1, 2, 3, 4, 6, 7 or 8; its value is 0 or 1, and 0 with every refusal.
pub fn recovery_answers()
    ensures { RecoveryAnswers }
{}

// The walk of every accepted image has every log entry exactly once.
pub fn walk_is_whole()
    ensures { WalkWhole }
{}

// A step on an accepted image says 'finished' exactly if no log entry is left behind its own.
pub fn finished_is_last()
    ensures { FinishedLast }
{}

// Each test behind refusal 8 matters: for each of its causes there is an image that it alone refuses.
pub fn causes_matter()
    ensures { CausesMatter }
{}

// The calls of a bench recover: after an accepted image call, over every list of recovery calls and cuts, demand 3 holds of the bytes that the calls gave.
pub fn bench_recovers()
    ensures { BenchRecovers }
{}
