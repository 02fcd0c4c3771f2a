//! The answers of the routes for programs.
use fixtures::Table;

// Words are in hexadecimal if the test is about them.
pub const PROGRAMS: Table = Table(
    r"{rt1}\n
POST /verify HTTP/1.1 >> {every} => 200 text accepted\n
POST /verify HTTP/1.1 >> {roads} => 200 text accepted\n
POST /verify HTTP/1.1 >> => 422 refused 10 Empty
POST /verify HTTP/1.1 >> \x95\x00\x00\x00\x00\x00\x00 => 422 refused 11 NotWhole
POST /verify HTTP/1.1 >> {unknown} => 422 refused 13 place 0 UnknownOpcode
POST /verify HTTP/1.1 >> {unused} => 422 refused 15 place 0 UnusedNotZero
POST /verify HTTP/1.1 >> {cut} => 422 refused 17 place 1 CutWide
POST /verify HTTP/1.1 >> {backward} => 422 refused 30 place 1 BackwardJump
POST /verify HTTP/1.1 >> {outside} => 422 refused 31 place 1 OutOfProgram
POST /verify HTTP/1.1 >> {wide} => 422 refused 32 place 0 IntoWide
POST /verify HTTP/1.1 >> {endless} => 422 refused 33 place 0 LastNotExit
POST /verify HTTP/1.1 >> {stuck} => 422 refused 40 place 0 ReadsNothing(0)
POST /verify HTTP/1.1 >> {beyond} => 422 refused 44 place 0 OutOfBounds
POST /verify HTTP/1.1 >> {argument} => 422 refused 50 place 5 BadArgument(3)
POST /verify HTTP/1.1 >> {pointer} => 422 refused 51 place 1 ExitNotNumber
POST /assemble HTTP/1.1 >> mov r0, 1\nexit\n => 200 octets {asm hex b700000001000000 9500000000000000}
POST /assemble HTTP/1.1 >> mov r0, 1\r\nexit => 200 octets {every}
POST /assemble HTTP/1.1 >> ; r\xc3\xa9sum\xc3\xa9\n exit ; \xe2\x82\xac => 200 octets {stuck}
POST /assemble HTTP/1.1 >> => 422 refused 26 line 1 CodeFault(10)
POST /assemble HTTP/1.1 >> \n\n; nothing\n => 422 refused 26 line 1 CodeFault(10)
POST /assemble HTTP/1.1 >> \xff => 400
POST /assemble HTTP/1.1 >> mov r0, 1\nexit\n\xc3 => 400
POST /assemble HTTP/1.1 >> move r0, 1\nexit ; \xc0\x80 => 400
POST /assemble HTTP/1.1 >> exit\nmove r0, 1\n => 422 refused 21 line 2 UnknownMnemonic
POST /assemble HTTP/1.1 >> mov r0\nexit\n => 422 refused 20 line 1 Syntax
POST /assemble HTTP/1.1 >> mov r0, 2147483648\nexit\n => 422 refused 22 line 1 NumberRange
POST /assemble HTTP/1.1 >> ja out\nexit\n => 422 refused 23 line 1 UnknownLabel
POST /assemble HTTP/1.1 >> out:\nexit\nout:\n => 422 refused 24 line 3 DoubleLabel
POST /assemble HTTP/1.1 >> exit\nmov r10, 1\n => 422 refused 26 line 2 CodeFault(18)
POST /assemble HTTP/1.1 >> mov r0, 1\nja -1\nexit\n => 200 octets {backward}
POST /disassemble HTTP/1.1 >> {asm hex b700000001000000 9500000000000000} => 200 text mov r0, 1\nexit\n
POST /disassemble HTTP/1.1 >> {stuck} => 200 text exit\n
POST /disassemble HTTP/1.1 >> {backward} => 200 text mov r0, 1\nja -1\nexit\n
POST /disassemble HTTP/1.1 >> {wide} => 200 text ja +1\nlddw r0, 0x0000000000000001\nexit\n
POST /disassemble HTTP/1.1 >> => 422 refused 10 Empty
POST /disassemble HTTP/1.1 >> \x95 => 422 refused 11 NotWhole
POST /disassemble HTTP/1.1 >> {unknown} => 422 refused 13 place 0 UnknownOpcode
POST /disassemble HTTP/1.1 >> {cut} => 422 refused 17 place 1 CutWide
POST /extract HTTP/1.1 >> {every} => 200 octets 0\t{rt1}\n
POST /extract HTTP/1.1 >> {scored} => 200 octets 18446744073709551615\t{rt1}\n
POST /extract HTTP/1.1 >> {never} => 200 octets
POST /extract HTTP/1.1 >> => 422 refused 10 Empty
POST /extract HTTP/1.1 >> {stuck}\x00 => 422 refused 11 NotWhole
POST /extract HTTP/1.1 >> {backward} => 422 refused 30 place 1 BackwardJump
POST /extract HTTP/1.1 >> {stuck} => 422 refused 40 place 0 ReadsNothing(0)",
);

// Three programs have the greatest length, and the others are longer.
pub const LONG: Table = Table(
    r"{rt1}\n
POST /verify HTTP/1.1 >> {asm mov r0, 1 *65535 | exit} => 200 text accepted\n
POST /verify HTTP/1.1 >> {every*32768} => 200 text accepted\n
POST /verify HTTP/1.1 >> {every*32768}\x00 => 422 refused 11 NotWhole
POST /verify HTTP/1.1 >> {every*32768}{stuck} => 422 refused 12 TooLong
POST /disassemble HTTP/1.1 >> {every*32768}{stuck} => 422 refused 12 TooLong
POST /extract HTTP/1.1 >> {asm mov r0, 1 *65535 | exit} => 200 octets 0\t{rt1}\n",
);

// Counties, and extracts over them. The last ones have the number of segments of a job's turn, and one more.
pub const COUNTIES: Table = Table(
    r"-
POST /extract HTTP/1.1 >> {every} => 200 octets
POST /extract HTTP/1.1 >> {stuck} => 422 refused 40 place 0 ReadsNothing(0)

{rt1\n*0}
POST /extract HTTP/1.1 >> {every} => 200 octets

{rt1\n*2}
POST /extract HTTP/1.1 >> {every} => 200 octets {0\trt1\n*2}
POST /extract HTTP/1.1 >> {never} => 200 octets

{rt1 CFCC=H01}\n{rt1}\n | {rt1\n*0} | {rt1}\n{rt1 CFCC=}\n
POST /extract HTTP/1.1 >> {roads} => 200 octets {0\trt1\n*2}
POST /extract HTTP/1.1 >> {every} => 200 octets 0\t{rt1 CFCC=H01}\n{0\trt1\n*2}0\t{rt1 CFCC=}\n

{rt1\n*256}
POST /extract HTTP/1.1 >> {every} => 200 octets {0\trt1\n*256}

{rt1\n*200} | {rt1\n*57}
POST /extract HTTP/1.1 >> {every} => 200 octets {0\trt1\n*257}",
);
