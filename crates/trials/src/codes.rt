// Codes at the edges of the two kinds, and their order.
use grades::{Kind, Points, Ratings};

fn rating(class: u8, days: u16) -> u32 {
    u32::from(class) + 256 * u32::from(days)
}

#[test]
fn codes_at_the_edges(rt: HostRuntime) {
    assert!(rt;
        Points::is_valid(1) && Points::is_valid(1000),
        "points 1 and 1,000"
    );
    assert!(rt;
        !Points::is_valid(0) && !Points::is_valid(1001),
        "points 0 and 1,001"
    );
    assert!(rt; Ratings::is_valid(5_120_004), "class 4 with 20,000 days");
    assert!(rt; !Ratings::is_valid(rating(4, 20_001)), "20,001 days");
    assert!(rt;
        !Ratings::is_valid(5) && !Ratings::is_valid(256),
        "classes 5 and 0"
    );
}

#[test]
fn ratings_by_class_and_then_days(rt: HostRuntime) {
    assert!(rt;
        Ratings::is_above(rating(1, 0), rating(2, 20_000)),
        "class 1 above class 2"
    );
    assert!(rt;
        Ratings::is_above(rating(2, 10), rating(2, 9)),
        "more days above fewer"
    );
    assert!(rt;
        !Ratings::is_above(rating(3, 5), rating(3, 5)),
        "a code is not above itself"
    );
    assert!(rt; !Ratings::is_above(rating(5, 5), rating(4, 5)), "no rating");
}
