//! Classes of objects, and the watermarks of their caches.

use bm_class::{Class, Marks, class_of, marks, marks_of};

#[test]
fn objects_have_the_class_of_the_least_unit_with_room(rt: HostRuntime) {
    let rows = [
        (0, None),
        (1, Some((16, 256))),
        (8, Some((16, 256))),
        (9, Some((32, 128))),
        (88, Some((96, 42))),
        (96, Some((128, 32))),
        (120, Some((128, 32))),
        (121, Some((192, 21))),
        (248, Some((256, 16))),
        (2040, Some((2048, 2))),
        (4088, Some((4096, 1))),
        (4089, None),
        (u32::MAX, None),
    ];
    for (bytes, want) in rows {
        let got = class_of(bytes).map(|class| (class.size(), class.per_page()));
        assert_eq!(rt; got, want, "an object of {bytes} bytes");
    }
}

#[test]
fn caches_have_the_marks_of_their_size(rt: HostRuntime) {
    let rows = [
        (8, 32, 96, 48, 64),
        (248, 32, 96, 48, 64),
        (504, 16, 48, 24, 32),
        (1016, 8, 24, 12, 16),
        (2040, 4, 12, 6, 8),
        (4088, 2, 6, 3, 4),
    ];
    for (bytes, low, high, batch, middle) in rows {
        let got = class_of(bytes).map(marks);
        assert_eq!(rt;
            got,
            Some(Marks { low, high, batch }),
            "an object of {bytes} bytes"
        );
        assert_eq!(rt;
            got.map(Marks::middle),
            Some(middle),
            "an object of {bytes} bytes"
        );
    }
}

#[test]
fn classes_go_by_their_index(rt: HostRuntime) {
    let mut sizes = [0; 11];
    for class in Class::all() {
        assert_eq!(rt; Class::new(class.index()), Some(class));
        sizes[class.index() as usize] = class.size();
    }
    assert_eq!(rt;
        sizes,
        [16, 32, 64, 96, 128, 192, 256, 512, 1024, 2048, 4096]
    );
    assert_eq!(rt; Class::new(11), None);
}

#[test]
fn the_greatest_sizes_have_the_least_marks(rt: HostRuntime) {
    assert_eq!(rt;
        marks_of::<8192>(),
        Marks {
            low: 1,
            high: 3,
            batch: 1
        }
    );
}
