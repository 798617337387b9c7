//! What no contract says: the first states, as they are known from outside.
use crate::draws::Generator;
use std::test::Fail;

static STATES: [u32; 8] = [
    0x3c6e_f35f,
    0x4750_2932,
    0xd1cc_f6e9,
    0xaaf9_5334,
    0x6252_e503,
    0x9f2e_c686,
    0x57fe_6c2d,
    0xa3d9_5fa8,
];

#[test]
fn states_follow_each_other_from_0(rt: HostRuntime) -> Result<(), Fail> {
    let mut generator = Generator { state: 0 };
    for state in &STATES {
        let drawn = generator.next();
        assert!(rt; generator.state == *state && drawn == *state / 65536);
    }
    Ok(())
}
