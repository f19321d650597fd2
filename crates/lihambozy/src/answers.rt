// What the C functions answer: structs of 32-bit words, but for the 64-bit count of
// `lhz_list_matches`. On a refusal `refusal` is its number, `at` is the place that it names or 0, and
// the values are 0, but for `volume` of joining; else `refusal` and `at` are 0. The answer of
// `lhz_pattern_rows` has values alone.
use plan::MOST_PATTERN_VARS;

// What `lhz_check_volume` answers: the number of lists and of postings.
#[repr(C)]
#[derive(Clone, Copy)]
pub struct CheckVolumeAnswer {
    pub refusal: u32,
    pub at: u32,
    pub lists: u32,
    pub postings: u32,
}

// What `lhz_read_list` answers: the number of postings at the front of the buffer.
#[repr(C)]
#[derive(Clone, Copy)]
pub struct ReadListAnswer {
    pub refusal: u32,
    pub at: u32,
    pub count: u32,
}

// What `lhz_write_volume` answers: the number of blocks at the front of the output.
#[repr(C)]
#[derive(Clone, Copy)]
pub struct WriteVolumeAnswer {
    pub refusal: u32,
    pub at: u32,
    pub blocks: u32,
}

// What `lhz_join_volumes` answers: the number of blocks at the front of the output. `volume` is 1 or 2
// where the refusal is that of the first or of the second volume, and else 0.
#[repr(C)]
#[derive(Clone, Copy)]
pub struct JoinVolumesAnswer {
    pub refusal: u32,
    pub at: u32,
    pub volume: u32,
    pub blocks: u32,
}

// What `lhz_check_plan` answers: the number of patterns (01: figures) and of their variables
// (01: voices).
#[repr(C)]
#[derive(Clone, Copy)]
pub struct CheckPlanAnswer {
    pub refusal: u32,
    pub at: u32,
    pub patterns: u32,
    pub vars: u32,
}

// What `lhz_pattern_rows` answers: where the rows of a pattern lie, in words of the plan; 0 and 0 on
// a refusal.
#[repr(C)]
#[derive(Clone, Copy)]
pub struct PatternRowsAnswer {
    pub start: u32,
    pub len: u32,
}

// What `lhz_test_positions` answers: 1 where the positions match (01: pass), and 0 where they do not.
#[repr(C)]
#[derive(Clone, Copy)]
pub struct TestPositionsAnswer {
    pub refusal: u32,
    pub at: u32,
    pub passes: u32,
}

// What `lhz_list` answers: the number of rows at the front of the buffer, the tally, and the document
// to go on from (01: MORE); 65,536 where none is left (01: DONE).
#[repr(C)]
#[derive(Clone, Copy)]
pub struct ListAnswer {
    pub refusal: u32,
    pub at: u32,
    pub rows: u32,
    pub tally: u32,
    pub next: u32,
}

// What `lhz_line_to_plan` answers: the number of words at the front of the buffer.
#[repr(C)]
#[derive(Clone, Copy)]
pub struct LineToPlanAnswer {
    pub refusal: u32,
    pub at: u32,
    pub words: u32,
}

// What `lhz_plan_to_line` answers: the number of bytes at the front of the buffer.
#[repr(C)]
#[derive(Clone, Copy)]
pub struct PlanToLineAnswer {
    pub refusal: u32,
    pub at: u32,
    pub bytes: u32,
}

// What `lhz_list_matches` answers: the number of matches (01: passing choices) at the front of the
// buffer; 1 where one is left (01: MORE), and then the first one left, with zeros behind it; 0 where
// none is left (01: DONE), and zeros.
#[repr(C)]
#[derive(Clone, Copy)]
pub struct ListMatchesAnswer {
    pub refusal: u32,
    pub at: u32,
    pub count: u64,
    pub more: u32,
    pub next: [u32; MOST_PATTERN_VARS],
}
