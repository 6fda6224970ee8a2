// What can be sent to other threads and shared by them: every public type of this layer.
use fx_list::{Array, Listing, Text};
use fx_near::{Band, Near};
use fx_num::{Fix, Over, Plain, Sum, Wide};
use fx_vec::{Inertia10, M3, Q4, Sp6, Sum3, Sum6, V3};
use fx_whole::Divisor;

fn is_shared<T: Send + Sync>() {}

#[test]
fn each_type_can_be_sent_and_shared() {
    is_shared::<Divisor>();
    is_shared::<Array<i64>>();
    is_shared::<Listing<u32>>();
    is_shared::<Text>();
    is_shared::<Over>();
    is_shared::<Plain>();
    is_shared::<Fix<32>>();
    is_shared::<Sum<Plain, 64>>();
    is_shared::<Wide<32>>();
    is_shared::<Band>();
    is_shared::<Near<0>>();
    is_shared::<Sum<Band, 3>>();
    is_shared::<V3<Plain, 32>>();
    is_shared::<M3>();
    is_shared::<Q4>();
    is_shared::<Sp6<Plain, 2>>();
    is_shared::<Sum3<Plain, 5>>();
    is_shared::<Sum6<Plain, 5>>();
    is_shared::<Inertia10>();
}
