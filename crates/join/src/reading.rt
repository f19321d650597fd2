// The stream of the joined volume, word by word: the counts of both, then list by list the postings
// of the first volume and those of the second with `lift` added.
ghost use Rattle.std.specs.Prelude.{◌≡◌, ◌+◌, ◌*◌, ◌-◌, ◌%◌, ◌<◌, ◌≤◌, min, length};
ghost use Rattle.seq.specs.Numbers.{run};
ghost use Rattle.volume.specs.Layout.{word, list_count, lead, extent, stream_length};
ghost use Rattle.join.specs.Refusals.{extent_of_both};
ghost use Rattle.join.specs.Inner.Reading.{joined_word, head_word, Liftable, made, read_of};
ghost use Rattle.join.specs.Inner.Reading.{front_of, StandsAt, StandsBefore, Turned};

use super::sources::Sources;
use volume::{BLOCK_WORDS, count_at, entry, lead, word_behind};

// How far both volumes are read: how many lists have been entered, and of the last of these the
// stream index of the next posting in the first volume, where the list stops there, the index of
// the next posting in the second volume, and where the list ends there.
#[derive(Clone, Copy)]
pub struct Merge {
    pub lists: usize,
    pub first: usize,
    pub stop: usize,
    pub second: usize,
    pub end: usize,
}

// In front of all postings.
pub fn front(lists: usize) -> Merge
    requires { lists ≤ 1024 }
    ensures { result ≡ front_of lists }
{
    let at = lead(lists);
    Merge {
        lists: 0,
        first: at,
        stop: at,
        second: at,
        end: at,
    }
}

// How many words from stream index `at` up to `end` lie in one block, `room` of them at most.
fn run_length(at: usize, end: usize, room: usize) -> usize
    requires { at ≤ end }
    ensures { result ≡ min (min (end - at) room) (126 - at % 126) }
{
    (end - at).min(room).min(BLOCK_WORDS - at % BLOCK_WORDS)
}

// Copies n words of one block of a volume, from stream index `from` on, into words from `to` on,
// with `lift` added to each.
fn copy_run(volume: &[u8], from: usize, n: usize, lift: u32, words: &mut [u32], to: usize)
    requires n_bound { from % 126 + n ≤ 126 }
    requires n_bound_2 { from + n ≤ stream_length volume.now }
    requires n_in_bounds { to + n ≤ length words.old }
    requires liftable { Liftable lift volume.now from n }
    ensures { words.new ≡ made (λ i. word volume.now i + lift) from to (to + n) words.old }
{
    for j in 0..n {
        words[to + j] = word_behind(volume, from, j) + lift;
    }
}

impl Sources<'_> {
    // Enters the next list, where the last one has ended.
    fn enter(&self, merge: Merge) -> Merge
        requires stands_at { StandsAt self.now.first.now self.now.second.now merge }
        requires first_value { merge.first ≡ merge.stop }
        requires second_value { merge.second ≡ merge.end }
        requires lists_bound { merge.lists < list_count self.now.first.now }
        ensures stands_at_2 { StandsAt self.now.first.now self.now.second.now result }
        ensures result_value { read_of result ≡ read_of merge }
        ensures lists_value { result.lists ≡ merge.lists + 1 }
    {
        let i = merge.lists;
        Merge {
            lists: i + 1,
            stop: merge.stop + count_at(self.first, i) as usize,
            end: merge.end + count_at(self.second, i) as usize,
            ..merge
        }
    }

    // Makes the next words of a block, from word `to` on: a run of postings of one volume, or no
    // word where a list is entered.
    fn turn(&self, merge: Merge, to: usize, words: &mut [u32]) -> Merge
        requires stands_at { StandsAt self.now.first.now self.now.second.now merge }
        requires merge_bound { read_of merge < extent self.now.first.now + extent self.now.second.now }
        requires to_bound { to < 126 }
        requires words_len { length words.old ≡ 126 }
        ensures turned { Turned self.now.lift self.now.first.now self.now.second.now merge to words.old result words.new }
        ensures merge_bound_2 { merge.lists + read_of merge < result.lists + read_of result }
    {
        let room = BLOCK_WORDS - to;
        if merge.first < merge.stop {
            let n = run_length(merge.first, merge.stop, room);
            copy_run(self.first, merge.first, n, 0, words, to);
            return Merge {
                first: merge.first + n,
                ..merge
            };
        }
        if merge.second < merge.end {
            let n = run_length(merge.second, merge.end, room);
            copy_run(self.second, merge.second, n, self.lift, words, to);
            return Merge {
                second: merge.second + n,
                ..merge
            };
        }
        self.enter(merge)
    }

    // Makes the words of a block from word `from` on, up to its end or to the last posting.
    fn fill(&self, merge: Merge, from: usize, words: &mut [u32]) -> Merge
        requires stands_at { StandsAt self.now.first.now self.now.second.now merge }
        requires from_bound { from ≤ 126 }
        requires words_len { length words.old ≡ 126 }
        ensures turned { Turned self.now.lift self.now.first.now self.now.second.now merge from words.old result words.new }
        ensures result_value { read_of result ≡ min (read_of merge + (126 - from)) self.now.all }
    {
        let mut here = merge;
        let mut to = from;
        while to < BLOCK_WORDS && here.first + here.second < self.all {
            let next = self.turn(here, to, words);
            to += next.first + next.second - (here.first + here.second);
            here = next;
        }
        here
    }

    // Stream word i, in front of the postings.
    fn head_word(&self, i: usize) -> u32
        requires i_bound { i < lead self.now.lists }
        ensures { result ≡ head_word self.now.first.now self.now.second.now i }
    {
        match i {
            0 => 1,
            1 => self.lists as u32,
            _ => {
                let list = i - entry(0);
                count_at(self.first, list) + count_at(self.second, list)
            }
        }
    }

    // Makes the words of a block from stream index `from` on that stand in front of the postings,
    // and tells how many.
    fn put_head(&self, from: usize, words: &mut [u32]) -> usize
        requires from_bound { from ≤ 1032192 }
        requires words_len { length words.old ≡ 126 }
        ensures value { result ≡ min 126 (lead self.now.lists - from) }
        ensures words_after { words.new ≡ made (head_word self.now.first.now self.now.second.now) from 0 result words.old }
    {
        let head = lead(self.lists).saturating_sub(from).min(BLOCK_WORDS);
        for j in 0..head {
            words[j] = self.head_word(from + j);
        }
        head
    }

    // Makes the words of block k, and goes on behind them.
    pub fn next_block(&self, k: usize, merge: Merge, words: &mut [u32]) -> Merge
        requires stands_before { StandsBefore self.now.first.now self.now.second.now merge k }
        requires k_bound { 126 * k < extent_of_both self.now.first.now self.now.second.now }
        requires words_len { length words.old ≡ 126 }
        ensures stands_before_2 { StandsBefore self.now.first.now self.now.second.now result (k + 1) }
        ensures words_after { words.new ≡ run (joined_word self.now.lift self.now.first.now self.now.second.now) (126 * k) 126 }
    {
        let head = self.put_head(BLOCK_WORDS * k, words);
        let here = self.fill(merge, head, words);
        let to = head + (here.first + here.second - (merge.first + merge.second));
        words[to..].fill(0);
        here
    }
}
