// What can be sent to other threads and shared by them: every public type of this layer.
use fx_text::DecimalFault;
use mj_io::{
    CabinetFault, Failed, FileCabinet, MemCabinet, MemSink, NoMemory, OutSink, Page, RoomSink,
    SureCabinet,
};

fn is_shared<T: Send + Sync>() {}

#[test]
fn each_type_of_output_can_be_sent_and_shared() {
    is_shared::<DecimalFault>();
    is_shared::<MemCabinet>();
    is_shared::<SureCabinet>();
    is_shared::<MemSink>();
    is_shared::<RoomSink>();
    is_shared::<Page>();
    is_shared::<FileCabinet<'static, HostRuntime>>();
    is_shared::<OutSink<'static, HostRuntime>>();
    is_shared::<NoMemory>();
    is_shared::<CabinetFault>();
    is_shared::<Failed>();
}
