//! What a gateway tells of itself.
use crate::tell::tells;

#[test]
fn a_gateway_tells_of_itself_in_a_line(rt: HostRuntime) {
    tells(
        &rt,
        rt.alloc(),
        "\
report-short
> {\"clients\":1,\"upstreams\":[],\
\"channels\":2,\"links\":6,\"subscriptions\":3,\"reads_waiting\":4,\"writes_waiting\":7,\"names_remembered\":8,\
\"edits\":41,\"messages_in\":42,\"messages_out\":43,\"largest_outbox_bytes\":44,\"limits\":{\
\"names_remembered\":{\"used\":8,\"most\":4096,\"met\":21},\
\"channels_of_a_client\":{\"used\":11,\"most\":4096,\"met\":22},\
\"subscriptions_of_a_client\":{\"used\":12,\"most\":8192,\"met\":23},\
\"reads_of_a_client\":{\"used\":13,\"most\":256,\"met\":24},\
\"writes_of_a_client\":{\"used\":14,\"most\":256,\"met\":25},\
\"links\":{\"used\":6,\"most\":65536,\"met\":26},\
\"clients\":{\"used\":1,\"most\":1024,\"met\":72},\
\"messages_before_updates_are_held\":{\"used\":15,\"most\":4096,\"met\":29},\
\"messages_of_a_connection\":{\"used\":15,\"most\":16384,\"met\":30}}}
report
> {\"clients\":1,\"upstreams\":[{\"number\":1,\"address\":\"10.0.0.9:5064\",\"connected\":true},\
{\"number\":2,\"address\":\"10.0.0.9:5065\",\"connected\":false}],\"upstreams_found\":46,\
\"channels\":2,\"links\":6,\"subscriptions\":3,\"reads_waiting\":4,\"writes_waiting\":7,\"names_remembered\":8,\
\"edits\":41,\"messages_in\":42,\"messages_out\":43,\"largest_outbox_bytes\":44,\"limits\":{\
\"names_remembered\":{\"used\":8,\"most\":4096,\"met\":21},\
\"channels_of_a_client\":{\"used\":11,\"most\":4096,\"met\":22},\
\"subscriptions_of_a_client\":{\"used\":12,\"most\":8192,\"met\":23},\
\"reads_of_a_client\":{\"used\":13,\"most\":256,\"met\":24},\
\"writes_of_a_client\":{\"used\":14,\"most\":256,\"met\":25},\
\"links\":{\"used\":6,\"most\":65536,\"met\":26},\
\"clients\":{\"used\":1,\"most\":1024,\"met\":72},\
\"messages_before_updates_are_held\":{\"used\":15,\"most\":4096,\"met\":29},\
\"messages_of_a_connection\":{\"used\":15,\"most\":16384,\"met\":30},\
\"bytes_of_all_clients\":{\"used\":47,\"most\":2097152,\"met\":48}}}
",
    );
}
