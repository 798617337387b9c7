//! One schedule written by hand.
use mind_base::{Event, LinkKind, LinkName, Side};
use rack_gen::{generated, make};
use sample_racks::{BASE, plan_in};
use std::test::Fail;

#[test]
fn three_lines_are_drawn_from_0_and_the_rack_settles(rt: HostRuntime) -> Result<(), Fail> {
    let alloc = rt.alloc();
    let plan = plan_in(alloc, BASE)?;
    let text = make(alloc, &plan, 3, 0)?;
    assert_eq!(rt;
        text.as_slice(),
        b"repeat u0 0\ndrain 0\nrepeat f1 1\nsettle\n".as_slice()
    );
    let events = generated(alloc, &plan, 3, 0)?;
    assert_eq!(rt;
        events.as_slice(),
        [
            Event::Repeat {
                link: LinkName {
                    kind: LinkKind::Up,
                    number: 0
                },
                side: Side::Messages,
                k: 0
            },
            Event::Drain { hart: 0 },
            Event::Repeat {
                link: LinkName {
                    kind: LinkKind::From,
                    number: 1
                },
                side: Side::Messages,
                k: 1
            },
            Event::Settle,
        ]
        .as_slice()
    );
    Ok(())
}
