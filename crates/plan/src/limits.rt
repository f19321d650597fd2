// The limits of a plan, and the words of a row of a listing, each in one place; `specs/Limits.antt`
// and `specs/Inner/Stack.antt` have the same numbers.
ghost use Rattle.std.specs.Prelude.{◌≡◌};
ghost use Rattle.plan.specs.Limits.{row_words};

// The last kind of a row; the first is 1.
pub const LAST_KIND: u32 = 11;
// What the least of an APART row is multiplied by in its c.
pub const LEAST_UNIT: u32 = 65536;
// The least and the most answers that AT LEAST takes.
pub const LEAST_TAKEN: u32 = 2;

pub const MOST_TAKEN: u32 = 8;
// The most rows of a plan.
pub const MOST_ROWS: usize = 64;
// The most words of a plan.
pub const MOST_WORDS: usize = 4 * MOST_ROWS;
// The most patterns (01: figures) of a plan.
pub const MOST_PATTERNS: usize = 8;
// The sets of found patterns of a plan with the most patterns.
pub const MOST_FOUND_SETS: usize = 256;
// The most variables (01: voices) of a pattern.
pub const MOST_PATTERN_VARS: usize = 8;
// The most variables of an accepted plan: 7 patterns have 7 ENDs, and an AT LEAST makes one answer of
// them, which leaves 56 of 64 rows, and 7 patterns have no more.
pub const MOST_VARS: usize = 56;

// The words of a row of a listing: the document, a flag for each pattern, a position and a start for
// each variable.
pub fn row_words(patterns: u32, vars: u32) -> usize
    ensures { result ≡ row_words patterns vars }
{
    1 + patterns as usize + 2 * vars as usize
}
