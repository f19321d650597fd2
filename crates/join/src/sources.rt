// The two volumes that are joined.
ghost use Rattle.std.specs.Prelude.{◌≡◌, ◌+◌};
ghost use Rattle.volume.specs.Layout.{list_count, extent};
ghost use Rattle.join.specs.Inner.Reading.{Lifts, Joinable};

// Two accepted volumes of as many lists, whose joined lists fit a volume.
#[derive(Clone, Copy)]
pub struct Sources<'a> {
    pub first: &'a [u8],
    pub second: &'a [u8],
    // The number of lists of each.
    pub lists: usize,
    // What is added to each posting of the second.
    pub lift: u32,
    // How much is read of both in all.
    pub all: usize,
    ghost joinable: { Joinable first.now second.now },
    ghost lists_are: { lists ≡ list_count first.now },
    ghost words: { Lifts 0 first.now },
    ghost lifts: { Lifts lift second.now },
    ghost all_is: { all ≡ extent first.now + extent second.now },
}
