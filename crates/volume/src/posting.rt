// Postings.
ghost use Rattle.std.specs.Prelude.{◌≡◌};
ghost use Rattle.volume.specs.Posting.{posting_of, doc_of, pos_of};

// A posting: a document (01: scene) and a position in it (01: place), as one number.
#[derive(Clone, Copy, Debug, PartialEq, Eq, PartialOrd, Ord)]
pub struct Posting {
    pub bits: u32,
}

impl Posting {
    // How many documents there may be. Where there is no document, this number stands for it.
    pub const DOCS: u32 = 65536;
    // How many positions a document may have. Where there is no position, this number stands for it.
    pub const POSITIONS: u32 = 65536;
    // The last document.
    pub const LAST_DOC: u32 = 65535;
    // The last position.
    pub const LAST_POS: u32 = 65535;

    // The posting of a document and a position.
    pub fn new(doc: u16, pos: u16) -> Posting
        ensures { result ≡ posting_of doc pos }
    {
        Posting {
            bits: u32::from(doc) * Posting::POSITIONS + u32::from(pos),
        }
    }

    // The last posting of all. Its promise fixes both constants.
    pub fn last() -> Posting
        ensures { result ≡ posting_of 65535 65535 }
    {
        Posting::new(Posting::LAST_DOC as u16, Posting::LAST_POS as u16)
    }

    pub fn doc(self) -> u32
        ensures { result ≡ doc_of self.bits }
    {
        self.bits / Posting::POSITIONS
    }

    pub fn pos(self) -> u32
        ensures { result ≡ pos_of self.bits }
    {
        self.bits % Posting::POSITIONS
    }
}
