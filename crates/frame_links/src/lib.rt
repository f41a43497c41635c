//! The links of frames: each leads to the caller's, and where frames are marked says whether a far routine's return stands
//! above it.
#![tactic(auto)]

ghost use Rattle.std.specs.Prelude.{◌≡◌};
ghost use Rattle.frame_links.specs.Links.{link_word, room_of};

/// Where the next link lies, by the word at a link. Where frames are marked, its lowest bit is none of the place.
pub fn next_of(marked: bool, word: u16) -> u16
    ensures { result ≡ (link_word marked word).next }
{
    if marked { word - word % 2 } else { word }
}

/// Whether the frame is a far routine's, by the word at its link: each is where frames aren't marked.
pub fn is_far(marked: bool, word: u16) -> bool
    ensures { result ≡ (link_word marked word).far }
{
    !marked || word % 2 == 1
}

/// The bytes of a link's word and of the return address above it.
pub fn room_of(far: bool) -> u32
    ensures { result ≡ room_of far }
{
    if far { 6 } else { 4 }
}
