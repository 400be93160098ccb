//! Addresses, references, statuses, heads and shapes.

use crate::rows::small;
use oa_words::packed::{
    Kind, head_parts, head_word, is_marked, ref_word, slot_part, status_parts, status_word,
};
use oa_words::shape::{Shape, ShapeFault};

#[test]
fn words_stand_where_the_layout_says(rt: HostRuntime) {
    let shape = small(&rt);
    assert!(rt;
        [
            shape.callers(),
            shape.slots(),
            shape.fields(),
            shape.cells()
        ] == [1, 3, 2, 1]
    );
    assert!(rt; [shape.phase_at(), shape.head_at(0), shape.word_count()] == [0, 24, 29]);
    assert!(rt; [shape.place_at(0), shape.warning_at(0), shape.cell_at(0)] == [1, 2, 23]);
    assert!(rt; [shape.hazard_at(0, 0), shape.hazard_at(0, 7)] == [3, 10]);
    assert!(rt; [shape.status_at(1), shape.field_at(2, 1)] == [12, 20]);
    assert!(rt; [shape.link_at(0), shape.link_at(3)] == [25, 28]);
}

/// No row has more than 25,000 words.
#[test]
fn greatest_row_has_so_many_words(rt: HostRuntime) {
    let shape = Shape::new(8, 4096, 4, 256).expect(&rt, "the numbers are in range");
    assert!(rt; shape.kinds() == 1);
    assert!(rt; [shape.head_at(0), shape.word_count()] == [20822, 24920]);
}

#[test]
fn references_and_statuses_are_packed(rt: HostRuntime) {
    assert!(rt; ref_word(3, true) == 7);
    assert!(rt; slot_part(7) == 3);
    assert!(rt; [is_marked(7), is_marked(6)] == [true, false]);
    assert!(rt; status_word(7, Kind::Retired) == 30);
    assert!(rt; status_parts(30) == Some((7, Kind::Retired)));
    assert!(rt; status_parts(28) == Some((7, Kind::Ready)));
    assert!(rt; status_parts(29) == Some((7, Kind::Used)));
    assert!(rt; status_parts(7).is_none());
}

#[test]
fn heads_are_packed(rt: HostRuntime) {
    let packed = [
        head_word(3, 2),
        head_word(1, 0),
        head_word(1125899906842624, 4096),
    ];
    assert!(rt; packed == [24578, 8192, 9223372036854779904]);
    assert!(rt; head_parts(24578) == (3, 2));
    assert!(rt; head_parts(8192) == (1, 0));
    assert!(rt; head_parts(9223372036854779904) == (1125899906842624, 4096));
}

fn fault_of(callers: u64, slots: u64, fields: u64, cells: u64) -> Option<ShapeFault> {
    Shape::new(callers, slots, fields, cells).err()
}

#[test]
fn shapes_have_limits(rt: HostRuntime) {
    assert!(rt; fault_of(1, 1, 1, 1).is_none());
    assert!(rt; fault_of(8, 4096, 4, 256).is_none());
    assert!(rt; fault_of(0, 1, 1, 1) == Some(ShapeFault::Callers));
    assert!(rt; fault_of(9, 0, 0, 0) == Some(ShapeFault::Callers));
    assert!(rt; fault_of(1, 0, 1, 1) == Some(ShapeFault::Slots));
    assert!(rt; fault_of(1, 4097, 0, 0) == Some(ShapeFault::Slots));
    assert!(rt; fault_of(1, 4294967297, 1, 1) == Some(ShapeFault::Slots));
    assert!(rt; fault_of(1, 1, 0, 0) == Some(ShapeFault::Fields));
    assert!(rt; fault_of(1, 1, 5, 1) == Some(ShapeFault::Fields));
    assert!(rt; fault_of(1, 1, 1, 0) == Some(ShapeFault::Cells));
    assert!(rt; fault_of(1, 1, 1, 257) == Some(ShapeFault::Cells));
}
