//! Laws of the wire forms. Each is a call that does nothing, and its contract is the law.
ghost use Rattle.std.specs.Prelude.{◌≡◌, ℕ, ◌*◌, ◌^◌, ◌<◌, ◌≤◌, List, length, Some, Ok};
ghost use Rattle.pv_name.specs.Name.{IsName};
ghost use Rattle.pv_name.specs.Host.{IsHost};
ghost use Rattle.ca_message.specs.declared.codes.TheConstants.{ECA_NORMAL, ECA_ALLOCMEM, ECA_TOLARGE, ECA_BADTYPE, ECA_INTERNAL, ECA_GETFAIL, ECA_PUTFAIL, ECA_BADCOUNT, ECA_BADMASK, ECA_NORDACCESS, ECA_NOWTACCESS, ECA_BADCHID, ERROR_TEXT_LIMIT};
ghost use Rattle.ca_message.specs.declared.commands.TheConstants.{CA_PROTO_VERSION, CA_PROTO_EVENT_ADD, CA_PROTO_EVENT_CANCEL, CA_PROTO_WRITE, CA_PROTO_SEARCH, CA_PROTO_EVENTS_OFF, CA_PROTO_EVENTS_ON, CA_PROTO_ERROR, CA_PROTO_CLEAR_CHANNEL, CA_PROTO_READ_NOTIFY, CA_PROTO_CREATE_CHAN, CA_PROTO_WRITE_NOTIFY, CA_PROTO_CLIENT_NAME, CA_PROTO_HOST_NAME, CA_PROTO_ACCESS_RIGHTS, CA_PROTO_ECHO, CA_PROTO_CREATE_CH_FAIL, CA_PROTO_SERVER_DISCONN};
ghost use Rattle.ca_message.specs.declared.commands.TheConstants.{MINOR_VERSION, NO_CHANNEL, SENDER_ADDRESS, CA_PROTO_ACCESS_RIGHT_READ, CA_PROTO_ACCESS_RIGHT_WRITE, READ_AND_WRITE};
ghost use Rattle.ca_message.specs.declared.payload.TheConstants.{EVENT_MASK_OFFSET, EVENT_PAYLOAD_LEN, LARGEST_SIZE};
ghost use Rattle.ca_message.specs.declared.text.TheConstants.{NUL};
ghost use Rattle.ca_message.specs.declared.reply.ServerReply.TheVariants as replies;
ghost use Rattle.ca_message.specs.declared.request.ClientRequest.TheVariants as requests;
ghost use Rattle.ca_message.specs.declared.to_client.ToClient.{ToClient};
ghost use Rattle.ca_message.specs.declared.to_client.ToClient.TheVariants as client;
ghost use Rattle.ca_message.specs.declared.to_server.ToServer.{ToServer};
ghost use Rattle.ca_message.specs.declared.to_server.ToServer.TheVariants as server;
ghost use Rattle.ca_message.specs.Wire.{IsWholeMessage};
ghost use Rattle.ca_message.specs.ToClient.{client_message, HasWholeParts};
ghost use Rattle.ca_message.specs.ToServer.{server_message, HasFittingParts};
ghost use Rattle.ca_message.specs.Padding.{padded};
ghost use Rattle.ca_message.specs.Written.{Written, plain_type, written};
ghost use Rattle.ca_header.specs.declared.header.TheConstants.{MAX_PAYLOAD};
ghost use Rattle.dbr_layout.specs.declared.dbr.Dbr.{Dbr};
ghost use Rattle.dbr_layout.specs.Dbr.{element_size};
ghost use Rattle.ca_message.specs.Laws.{asks, says};

/// The numbers of commands (Channel Access Protocol Specification, "Commands").
pub fn commands_are_these()
    ensures version { CA_PROTO_VERSION ≡ 0 }
    ensures event_add { CA_PROTO_EVENT_ADD ≡ 1 }
    ensures event_cancel { CA_PROTO_EVENT_CANCEL ≡ 2 }
    ensures write { CA_PROTO_WRITE ≡ 4 }
    ensures search { CA_PROTO_SEARCH ≡ 6 }
    ensures events_off { CA_PROTO_EVENTS_OFF ≡ 8 }
    ensures events_on { CA_PROTO_EVENTS_ON ≡ 9 }
    ensures error { CA_PROTO_ERROR ≡ 11 }
    ensures clear_channel { CA_PROTO_CLEAR_CHANNEL ≡ 12 }
    ensures read_notify { CA_PROTO_READ_NOTIFY ≡ 15 }
    ensures create_chan { CA_PROTO_CREATE_CHAN ≡ 18 }
    ensures write_notify { CA_PROTO_WRITE_NOTIFY ≡ 19 }
    ensures client_name { CA_PROTO_CLIENT_NAME ≡ 20 }
    ensures host_name { CA_PROTO_HOST_NAME ≡ 21 }
    ensures access_rights { CA_PROTO_ACCESS_RIGHTS ≡ 22 }
    ensures echo { CA_PROTO_ECHO ≡ 23 }
    ensures create_ch_fail { CA_PROTO_CREATE_CH_FAIL ≡ 26 }
    ensures server_disconn { CA_PROTO_SERVER_DISCONN ≡ 27 }
{}

/// The status codes (Channel Access Protocol Specification, "Return Codes").
pub fn codes_are_these()
    ensures normal { ECA_NORMAL ≡ 1 }
    ensures allocmem { ECA_ALLOCMEM ≡ 48 }
    ensures tolarge { ECA_TOLARGE ≡ 72 }
    ensures badtype { ECA_BADTYPE ≡ 114 }
    ensures internal { ECA_INTERNAL ≡ 142 }
    ensures getfail { ECA_GETFAIL ≡ 152 }
    ensures putfail { ECA_PUTFAIL ≡ 160 }
    ensures badcount { ECA_BADCOUNT ≡ 176 }
    ensures badmask { ECA_BADMASK ≡ 330 }
    ensures nordaccess { ECA_NORDACCESS ≡ 368 }
    ensures nowtaccess { ECA_NOWTACCESS ≡ 376 }
    ensures badchid { ECA_BADCHID ≡ 410 }
{}

/// The other numbers of messages.
pub fn numbers_are_these()
    ensures minor_version { MINOR_VERSION ≡ 13 }
    ensures sender_address { SENDER_ADDRESS ≡ 0xFFFF_FFFF }
    ensures no_channel { NO_CHANNEL ≡ 0xFFFF_FFFF }
    ensures right_to_read { CA_PROTO_ACCESS_RIGHT_READ ≡ 1 }
    ensures right_to_write { CA_PROTO_ACCESS_RIGHT_WRITE ≡ 2 }
    ensures both_rights { READ_AND_WRITE ≡ 3 }
    ensures event_payload_len { EVENT_PAYLOAD_LEN ≡ 16 }
    ensures event_mask_offset { EVENT_MASK_OFFSET ≡ 12 }
    ensures largest_size { LARGEST_SIZE ≡ 0xFFFF_FFFF }
    ensures error_text_limit { ERROR_TEXT_LIMIT ≡ 22 }
    ensures nul { NUL ≡ 0 }
{}

/// A message to a client that is made of whole parts is whole: its payload is a multiple of 8 bytes
/// within the limit, and its header says how many.
pub fn messages_to_clients_are_whole()
    ensures { (m : ToClient) → HasWholeParts m → IsWholeMessage (client_message m) }
{}

/// The same of each message to a server.
pub fn messages_to_servers_are_whole()
    ensures { (m : ToServer) → HasFittingParts m → IsWholeMessage (server_message m) }
{}

/// A gateway reads what another one says to it as a server.
pub fn requests_are_read_back()
    ensures version { asks server.Version (requests.Version MINOR_VERSION) }
    ensures event { (sid id dtype count mask : ℕ) → mask < 2 ^ 16 → asks
        (server.EventAdd sid id dtype count mask)
        (requests.EventAdd (record { sid = sid; id = id; dtype = dtype; count = count; mask = mask })) }
    ensures cancel { (sid id dtype count : ℕ) → asks
        (server.EventCancel sid id dtype count)
        (requests.EventCancel (record { sid = sid; id = id; dtype = dtype; count = count })) }
    ensures clear { (sid cid : ℕ) → asks
        (server.ClearChannel sid cid) (requests.ClearChannel (record { sid = sid; cid = cid })) }
    ensures channel { (cid : ℕ) (name : List ℕ) → IsName name → asks
        (server.CreateChannel cid name)
        (requests.CreateChannel (record { cid = cid; minor = MINOR_VERSION; name = name })) }
    ensures write { (sid : ℕ) (value : Written) → asks
        (server.Write sid value)
        (requests.Write (record { sid = sid; dtype = value.dtype; count = value.count; value = padded value.bytes })) }
    ensures write_notify { (sid ioid : ℕ) (value : Written) → asks
        (server.WriteNotify sid ioid value)
        (requests.WriteNotify (record { sid = sid; ioid = ioid; dtype = value.dtype; count = value.count; value = padded value.bytes })) }
    ensures client { (name : List ℕ) → IsName name
        → asks (server.ClientName name) (requests.ClientName name) }
    ensures host { (name : List ℕ) → IsHost name
        → asks (server.HostName name) (requests.HostName name) }
    ensures echo { asks server.Echo requests.Echo }
{}

/// A gateway reads what another one says to it as a client.
pub fn replies_are_read_back()
    ensures version { says client.Version (replies.Version MINOR_VERSION) }
    ensures update { (id dtype count : ℕ) (value : List ℕ) → says
        (client.Update id dtype count value) (replies.EventAdd id ECA_NORMAL dtype count value) }
    ensures channel { (cid sid dtype count : ℕ) → says
        (client.CreateChannel cid sid dtype count) (replies.CreateChannel cid sid dtype count) }
    ensures fail { (cid : ℕ) → says (client.CreateChannelFail cid) (replies.CreateChannelFail cid) }
    ensures written { (ioid dtype count status : ℕ)
        → says (client.WriteNotify ioid dtype count status) (replies.WriteNotify ioid status) }
    ensures rights { (cid rights : ℕ) → rights ≤ READ_AND_WRITE
        → says (client.AccessRights cid rights) (replies.AccessRights cid rights) }
    ensures disconnect { (cid : ℕ)
        → says (client.ServerDisconnect cid) (replies.ServerDisconnect cid) }
{}

/// A value that may be written has exactly the bytes of its elements, and fits in a payload where it
/// came in one. What is handed on is read as the same value.
pub fn written_values_are_exact()
    ensures sized { (dtype count native : ℕ) (payload : List ℕ) (value : Written) (dbr : Dbr)
        → written dtype count native payload ≡ Ok value → plain_type dtype ≡ Some dbr
        → length value.bytes ≡ count * element_size dbr.base }
    ensures fits { (dtype count native : ℕ) (payload : List ℕ) (value : Written)
        → written dtype count native payload ≡ Ok value → length payload ≤ MAX_PAYLOAD
        → length value.bytes ≤ MAX_PAYLOAD }
    ensures read_back { (dtype count native : ℕ) (payload : List ℕ) (value : Written)
        → written dtype count native payload ≡ Ok value
        → written dtype count native (padded value.bytes) ≡ Ok value }
{}
