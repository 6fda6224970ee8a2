// What no clause says of generated models and tapes: whole texts, from the formats, worked by hand.
use mj_gen::{chain_model, sine_tape};
use std::test::Fail;

const ONE_LINK: &[u8] = b"[option]
timestep = \"0.002\"

[[geom]]
type = \"plane\"

[[body]]
name = \"link1\"
pos = [0, 0, \"0.5\"]
quat = [1, 0, 1, 0]
inertial = { pos = [0, 0, \"-0.05\"], mass = \"0.082323\", diaginertia = [\"0.001\", \"0.001\", \"0.001\"] }
[[body.joint]]
name = \"j1\"
axis = [0, 1, 0]
range = [-2, 2]
damping = \"0.05\"
[[body.geom]]
type = \"capsule\"
size = [\"0.02\", \"0.03\"]
pos = [0, 0, \"-0.05\"]

[[motor]]
joint = \"j1\"
gear = \"0.1\"
ctrlrange = [-1, 1]
";

// The masses are 50,000 millionths and the highest 16 bits of the first and the second number of seed
// 7, which are 9098160460397411210 and 17628806926561717905.
const SECOND_LINK: &[u8] = b"
[[body]]
name = \"link2\"
parent = \"link1\"
pos = [0, 0, \"-0.1\"]
inertial = { pos = [0, 0, \"-0.05\"], mass = \"0.112630\", diaginertia = [\"0.001\", \"0.001\", \"0.001\"] }
[[body.joint]]
name = \"j2\"
axis = [1, 0, 0]
range = [-2, 2]
damping = \"0.05\"
[[body.geom]]
type = \"capsule\"
size = [\"0.02\", \"0.03\"]
pos = [0, 0, \"-0.05\"]

[[motor]]
joint = \"j1\"
gear = \"0.1\"
ctrlrange = [-1, 1]

[[motor]]
joint = \"j2\"
gear = \"0.1\"
ctrlrange = [-1, 1]
";

#[test]
fn a_chain_is_drawn_link_by_link(rt: HostRuntime) -> Result<(), Fail> {
    assert_eq!(rt; chain_model(rt.alloc(), 7, 1)?.as_slice(), ONE_LINK);
    assert!(rt; chain_model(rt.alloc(), 7, 2)?.ends_with(SECOND_LINK));
    Ok(())
}

#[test]
fn a_tape_begins_at_the_angle_of_its_seed(rt: HostRuntime) -> Result<(), Fail> {
    let first = sine_tape(rt.alloc(), 0, 1, 2)?;
    assert_eq!(rt; first.as_slice(), b"0.015624,0.031245\n".as_slice());
    let later = sine_tape(rt.alloc(), 2047, 1, 2)?;
    assert_eq!(rt; later.as_slice(), b"-0.287903,-0.302831\n".as_slice());
    Ok(())
}
