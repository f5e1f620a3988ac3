//! Messages that tell properties, and those that are too short for them.
use crate::tell::tells;
use std::test::Fail;

#[test]
fn only_ctrl_types_tell_properties(rt: HostRuntime) -> Result<(), Fail> {
    tells(
        &rt,
        rt.alloc(),
        "\
# Properties are told by CTRL forms alone, and by no bytes of the value.
describe 28: 00000000
describe 21: 00000000
> tells no properties
describe 14: 00*12
> tells no properties
describe 0: 00
> tells no properties
describe 29: 00*28
describe 22: 00*24
> tells no properties
describe 15: 00*14
> tells no properties
describe 1: 00
> tells no properties
describe 30: 00*48
describe 23: 00*40
> tells no properties
describe 16: 00*12
> tells no properties
describe 2: 00
> tells no properties
describe 31: 00*422
describe 24: 00*422
> tells no properties
describe 17: 00*14
> tells no properties
describe 3: 00
> tells no properties
describe 32: 00*21
describe 25: 00*19
> tells no properties
describe 18: 00*15
> tells no properties
describe 4: 00
> tells no properties
describe 33: 00*44
describe 26: 00*36
> tells no properties
describe 19: 00*12
> tells no properties
describe 5: 00
> tells no properties
describe 34: 00*80
describe 27: 00*64
> tells no properties
describe 20: 00*16
> tells no properties
describe 6: 00
> tells no properties
",
    )
}

#[test]
fn each_field_of_a_string_is_there(rt: HostRuntime) -> Result<(), Fail> {
    tells(
        &rt,
        rt.alloc(),
        "\
# One byte short at each field of a STRING.
describe 28: 00
> too short for its elements
describe 28: 000000
> too short for its elements
describe 28: 00000000
",
    )
}

#[test]
fn each_field_of_a_short_is_there(rt: HostRuntime) -> Result<(), Fail> {
    tells(
        &rt,
        rt.alloc(),
        "\
# One byte short at each field of a SHORT.
describe 29: 00
> too short for its elements
describe 29: 000000
> too short for its elements
describe 29: 00*11
> too short for its elements
describe 29: 00*13
> too short for its elements
describe 29: 00*15
> too short for its elements
describe 29: 00*17
> too short for its elements
describe 29: 00*19
> too short for its elements
describe 29: 00*21
> too short for its elements
describe 29: 00*23
> too short for its elements
describe 29: 00*25
> too short for its elements
describe 29: 00*27
> too short for its elements
describe 29: 00*28
",
    )
}

#[test]
fn each_field_of_a_float_is_there(rt: HostRuntime) -> Result<(), Fail> {
    tells(
        &rt,
        rt.alloc(),
        "\
# One byte short at each field of a FLOAT.
describe 30: 00
> too short for its elements
describe 30: 000000
> too short for its elements
describe 30: 0000000000
> too short for its elements
describe 30: 00000000000000
> too short for its elements
describe 30: 00*15
> too short for its elements
describe 30: 00*19
> too short for its elements
describe 30: 00*23
> too short for its elements
describe 30: 00*27
> too short for its elements
describe 30: 00*31
> too short for its elements
describe 30: 00*35
> too short for its elements
describe 30: 00*39
> too short for its elements
describe 30: 00*43
> too short for its elements
describe 30: 00*47
> too short for its elements
describe 30: 00*48
",
    )
}

#[test]
fn each_field_of_an_enum_is_there(rt: HostRuntime) -> Result<(), Fail> {
    tells(
        &rt,
        rt.alloc(),
        "\
# One byte short at each field of an ENUM.
describe 31: 00
> too short for its elements
describe 31: 000000
> too short for its elements
describe 31: 0000000000
> too short for its elements
describe 31: 00*31
> too short for its elements
describe 31: 00*57
> too short for its elements
describe 31: 00*83
> too short for its elements
describe 31: 00*109
> too short for its elements
describe 31: 00*135
> too short for its elements
describe 31: 00*161
> too short for its elements
describe 31: 00*187
> too short for its elements
describe 31: 00*213
> too short for its elements
describe 31: 00*239
> too short for its elements
describe 31: 00*265
> too short for its elements
describe 31: 00*291
> too short for its elements
describe 31: 00*317
> too short for its elements
describe 31: 00*343
> too short for its elements
describe 31: 00*369
> too short for its elements
describe 31: 00*395
> too short for its elements
describe 31: 00*421
> too short for its elements
describe 31: 00*422
",
    )
}

#[test]
fn each_field_of_a_char_is_there(rt: HostRuntime) -> Result<(), Fail> {
    tells(
        &rt,
        rt.alloc(),
        "\
# One byte short at each field of a CHAR.
describe 32: 00
> too short for its elements
describe 32: 000000
> too short for its elements
describe 32: 00*11
> too short for its elements
describe 32: 00*12
> too short for its elements
describe 32: 00*13
> too short for its elements
describe 32: 00*14
> too short for its elements
describe 32: 00*15
> too short for its elements
describe 32: 00*16
> too short for its elements
describe 32: 00*17
> too short for its elements
describe 32: 00*18
> too short for its elements
describe 32: 00*19
> too short for its elements
describe 32: 00*20
> too short for its elements
describe 32: 00*21
",
    )
}

#[test]
fn each_field_of_a_long_is_there(rt: HostRuntime) -> Result<(), Fail> {
    tells(
        &rt,
        rt.alloc(),
        "\
# One byte short at each field of a LONG.
describe 33: 00
> too short for its elements
describe 33: 000000
> too short for its elements
describe 33: 00*11
> too short for its elements
describe 33: 00*15
> too short for its elements
describe 33: 00*19
> too short for its elements
describe 33: 00*23
> too short for its elements
describe 33: 00*27
> too short for its elements
describe 33: 00*31
> too short for its elements
describe 33: 00*35
> too short for its elements
describe 33: 00*39
> too short for its elements
describe 33: 00*43
> too short for its elements
describe 33: 00*44
",
    )
}

#[test]
fn each_field_of_a_double_is_there(rt: HostRuntime) -> Result<(), Fail> {
    tells(
        &rt,
        rt.alloc(),
        "\
# One byte short at each field of a DOUBLE.
describe 34: 00
> too short for its elements
describe 34: 000000
> too short for its elements
describe 34: 0000000000
> too short for its elements
describe 34: 00000000000000
> too short for its elements
describe 34: 00*15
> too short for its elements
describe 34: 00*23
> too short for its elements
describe 34: 00*31
> too short for its elements
describe 34: 00*39
> too short for its elements
describe 34: 00*47
> too short for its elements
describe 34: 00*55
> too short for its elements
describe 34: 00*63
> too short for its elements
describe 34: 00*71
> too short for its elements
describe 34: 00*79
> too short for its elements
describe 34: 00*80
",
    )
}
