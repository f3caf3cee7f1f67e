//! Merging with no mark, with all, and with one alone at the edges of words and of the page, and which bits of its
//! words a mask has.

use page_store::Mask;
use std::process::Abort;

/// Merges a page of twos into one of ones, and compares: the marked places are two.
fn compare<R: Abort>(rt: &R, mask: &Mask, is_marked: &[bool; 4096]) {
    let mut page = [1u8; 4096];
    let written = [2u8; 4096];
    mask.merge(&mut page, &written);
    for place in 0..4096usize {
        let wanted = if is_marked[place] { 2 } else { 1 };
        assert!(rt; page[place] == wanted, "at place {place}");
    }
}

#[test]
fn one_mark_changes_one_place(rt: HostRuntime) {
    for marked in [0usize, 63, 64, 65, 2048, 4031, 4032, 4095] {
        let mut mask = Mask::new();
        let mut is_marked = [false; 4096];
        if marked < 4096 {
            mask.set(marked);
            is_marked[marked] = true;
        }
        compare(&rt, &mask, &is_marked);
    }
}

#[test]
fn no_mark_and_all_marks(rt: HostRuntime) {
    let mut mask = Mask::new();
    compare(&rt, &mask, &[false; 4096]);
    for place in 0..4096usize {
        mask.set(place);
    }
    compare(&rt, &mask, &[true; 4096]);
}

#[test]
fn marks_of_each_pattern_change_their_places(rt: HostRuntime) {
    for step in [2usize, 3, 7, 63, 64, 65] {
        let mut mask = Mask::new();
        let mut is_marked = [false; 4096];
        for place in 0..4096usize {
            if place % step == step - 1 {
                mask.set(place);
                is_marked[place] = true;
            }
        }
        compare(&rt, &mask, &is_marked);
    }
}

#[test]
fn words_have_the_first_place_lowest(rt: HostRuntime) {
    let mut mask = Mask::new();
    mask.set(0);
    mask.set(63);
    mask.set(130);
    mask.set(4095);
    assert!(rt; mask.word(0) == 0x8000_0000_0000_0001);
    assert!(rt; mask.word(1) == 0);
    assert!(rt; mask.word(2) == 4);
    assert!(rt; mask.word(63) == 0x8000_0000_0000_0000);
}

/// Whether a thread's own copy of a page of ones, with twos at two places, is the page after its commit: `theirs` is
/// what another thread stored at a place of the page meanwhile.
fn is_own_copy(place: usize, theirs: u8) -> bool {
    let mut mask = Mask::new();
    mask.set(2);
    mask.set(130);
    let mut own = [1u8; 4096];
    own[2] = 2;
    own[130] = 2;
    let mut page = [1u8; 4096];
    if place < 4096 {
        page[place] = theirs;
    }
    mask.gives_written(&page, &own)
}

#[test]
fn own_copy_is_the_page_where_none_other_differs(rt: HostRuntime) {
    assert!(rt; is_own_copy(0, 1));
    for marked in [2usize, 130] {
        assert!(rt;
            is_own_copy(marked, 9),
            "another byte at place {marked}, which is stored to"
        );
    }
    for unmarked in [0usize, 3, 63, 64, 127, 129, 131, 4095] {
        assert!(rt;
            !is_own_copy(unmarked, 9),
            "another byte at place {unmarked}"
        );
    }
}
