//! The table of types, and the sizes at the limit.
use crate::tell::tells;
use std::test::Fail;

#[test]
fn types_have_numbers_and_sizes(rt: HostRuntime) -> Result<(), Fail> {
    tells(
        &rt,
        rt.alloc(),
        "\
# Each type has its number, the place of its elements, and the size of one.
types
> 0 Plain String 0 40 served
> 1 Plain Short 0 2 served
> 2 Plain Float 0 4 served
> 3 Plain Enum 0 2 served
> 4 Plain Char 0 1 served
> 5 Plain Long 0 4 served
> 6 Plain Double 0 8 served
> 7 Sts String 4 40 served
> 8 Sts Short 4 2 served
> 9 Sts Float 4 4 served
> 10 Sts Enum 4 2 served
> 11 Sts Char 5 1 served
> 12 Sts Long 4 4 served
> 13 Sts Double 8 8 served
> 14 Time String 12 40 served
> 15 Time Short 14 2 served
> 16 Time Float 12 4 served
> 17 Time Enum 14 2 served
> 18 Time Char 15 1 served
> 19 Time Long 12 4 served
> 20 Time Double 16 8 served
> 21 Gr String 4 40 served
> 22 Gr Short 24 2 served
> 23 Gr Float 40 4 served
> 24 Gr Enum 422 2 served
> 25 Gr Char 19 1 served
> 26 Gr Long 36 4 served
> 27 Gr Double 64 8 served
> 28 Ctrl String 4 40 served
> 29 Ctrl Short 28 2 served
> 30 Ctrl Float 48 4 served
> 31 Ctrl Enum 422 2 served
> 32 Ctrl Char 21 1 served
> 33 Ctrl Long 44 4 served
> 34 Ctrl Double 80 8 served
type 19 19
> Time Long
type 35 74
>40 none
type 65535 65535
> none
# What needs properties of the variable, by its type: GR and CTRL, and of an ENUM texts.
needs 0
> 22 23 24 25 26 27 29 30 31 32 33 34
needs 3
> 0 7 14 21 22 23 24 25 26 27 28 29 30 31 32 33 34
needs 17
> 0 7 14 21 22 23 24 25 26 27 28 29 30 31 32 33 34
needs 20
> 22 23 24 25 26 27 29 30 31 32 33 34
# Sizes end at the limit.
size 5 0
> 0
size 5 1
> 8
size 5 4194304
> 16777216
size 5 4194305
> none
size 19 0
> 16
size 19 1
> 16
size 19 4194301
> 16777216
size 19 4194302
> none
size 19 4294967295
> none
size 0 419430
> 16777200
size 0 419431
> none
size 0 4294967295
> none
size 11 16777211
> 16777216
size 11 16777212
> none
size 33 4194293
> 16777216
size 33 4194294
> none
size 26 4194295
> 16777216
size 26 4194296
> none
size 20 2097150
> 16777216
size 20 2097151
> none
# Bases are converted by a table.
conversions
> String to String
> Short to String Short Long
> Float to Float
> Enum to String Enum Long
> Char to String Short Char Long
> Long to String Long
> Double to Double
",
    )
}
