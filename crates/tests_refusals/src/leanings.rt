//! Common C that leans on headers and compilers, or declares in other places, and what to write instead.

use crate::idioms::{Idiom, expect_each};
use std::test::Fail;

#[test]
fn headers_and_compilers(rt: HostRuntime) -> Result<(), Fail> {
    let table = [
        Idiom {
            common: "int main(void) {\n\
                uint32_t x = ep_in_u32();\n\
                uint32_t y;\n\
                y = htonl(x);\n\
                ep_write(&y, 4);\n\
                }\n",
            refusal: "4: refused 30 unknown-name\n",
            instead: "int main(void) {\n\
                uint32_t x = ep_in_u32();\n\
                uint8_t y[4];\n\
                y[0] = x >> 24;\n\
                y[1] = x >> 16;\n\
                y[2] = x >> 8;\n\
                y[3] = x;\n\
                ep_write(y, 4);\n\
                }\n",
        },
        Idiom {
            common: "int main(void) {\n\
                uint8_t a[2] = {1, 2};\n\
                uint8_t b[2] = {1, 2};\n\
                if (memcmp(a, b, 2) == 0) {\n\
                ep_out_u8(1);\n\
                }\n\
                }\n",
            refusal: "4: refused 30 unknown-name\n",
            instead: "int main(void) {\n\
                uint8_t a[2] = {1, 2};\n\
                uint8_t b[2] = {1, 2};\n\
                int same = 1;\n\
                int i;\n\
                for (i = 0; i < 2; i++) {\n\
                if (a[i] != b[i]) same = 0;\n\
                }\n\
                if (same) {\n\
                ep_out_u8(1);\n\
                }\n\
                }\n",
        },
        Idiom {
            common: "int main(void) {\n\
                uint8_t n = ep_in_u8();\n\
                assert(n < 4);\n\
                ep_out_u8(n);\n\
                }\n",
            refusal: "3: refused 30 unknown-name\n",
            instead: "int main(void) {\n\
                uint8_t n = ep_in_u8();\n\
                if (n >= 4) return 1;\n\
                ep_out_u8(n);\n\
                }\n",
        },
        Idiom {
            common: "int main(void) {\n\
                uint32_t x = UINT32_MAX;\n\
                ep_out_u32(x);\n\
                }\n",
            refusal: "2: refused 30 unknown-name\n",
            instead: "int main(void) {\n\
                uint32_t x = 0xffffffff;\n\
                ep_out_u32(x);\n\
                }\n",
        },
        Idiom {
            common: "struct s { uint8_t a; uint32_t b; };\n\
                int main(void) {\n\
                ep_out_u8(offsetof(struct s, b));\n\
                }\n",
            refusal: "3: refused 10 syntax\n",
            instead: "struct s { uint8_t a; uint32_t b; };\n\
                int main(void) {\n\
                ep_out_u8(4);\n\
                }\n",
        },
        Idiom {
            common: "#pragma pack(1)\n\
                struct s { uint8_t a; uint16_t b; };\n\
                int main(void) {\n\
                struct s x = {1, 2};\n\
                ep_out_u8(x.a);\n\
                ep_out_u16(x.b);\n\
                }\n",
            refusal: "1: refused 5 directive\n",
            instead: "int main(void) {\n\
                uint8_t x[3] = {1, 2, 0};\n\
                ep_out_u8(x[0]);\n\
                ep_out_u16(x[1] | x[2] << 8);\n\
                }\n",
        },
    ];
    expect_each(&rt, rt.alloc(), &table)
}

#[test]
fn places_of_declarations(rt: HostRuntime) -> Result<(), Fail> {
    let table = [
        Idiom {
            common: "int f(void) { return 1; }\n\
                int main(void) {\n\
                (void)f();\n\
                }\n",
            refusal: "3: refused 18 call-in-expression\n",
            instead: "int f(void) { return 1; }\n\
                int main(void) {\n\
                f();\n\
                }\n",
        },
        Idiom {
            common: "struct t;\n\
                struct s { struct t *next; };\n\
                int main(void) {\n\
                ep_out_u8(1);\n\
                }\n",
            refusal: "1: refused 10 syntax\n",
            instead: "typedef struct t t;\n\
                struct s { struct t *next; };\n\
                int main(void) {\n\
                ep_out_u8(1);\n\
                }\n",
        },
        Idiom {
            common: "int main(void) {\n\
                struct s { int a; };\n\
                struct s x = {1};\n\
                ep_out_i32(x.a);\n\
                }\n",
            refusal: "2: refused 10 syntax\n",
            instead: "struct s { int a; };\n\
                int main(void) {\n\
                struct s x = {1};\n\
                ep_out_i32(x.a);\n\
                }\n",
        },
        Idiom {
            common: "struct s { uint8_t a[4]; int b; };\n\
                int main(void) {\n\
                struct s x = {0};\n\
                ep_out_i32(x.b);\n\
                }\n",
            refusal: "3: refused 32 type-mismatch\n",
            instead: "struct s { uint8_t a[4]; int b; };\n\
                int main(void) {\n\
                struct s x = {{0}};\n\
                ep_out_i32(x.b);\n\
                }\n",
        },
        Idiom {
            common: "uint8_t buffer[4];\n\
                uint8_t *next = buffer;\n\
                int main(void) {\n\
                ep_out_u8(*next);\n\
                }\n",
            refusal: "2: refused 45 not-constant\n",
            instead: "uint8_t buffer[4];\n\
                uint8_t *next;\n\
                int main(void) {\n\
                next = buffer;\n\
                ep_out_u8(*next);\n\
                }\n",
        },
    ];
    expect_each(&rt, rt.alloc(), &table)
}
