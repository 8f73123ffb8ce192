//! Common C that is refused, and what to write instead.

use crate::tells::expect;
use std::alloc::Global;
use std::process::Abort;
use std::test::Fail;
use tests_calls::{Case, Status};

#[derive(Clone, Copy)]
pub(crate) struct Idiom {
    pub common: &'static str,
    pub refusal: &'static str,
    pub instead: &'static str,
}

pub(crate) fn expect_each(rt: &impl Abort, alloc: Global, idioms: &[Idiom]) -> Result<(), Fail> {
    for idiom in idioms {
        expect(
            rt,
            alloc,
            &Case::check(idiom.common.as_bytes()),
            Status::Refused,
            idiom.refusal,
        )?;
        expect(
            rt,
            alloc,
            &Case::check(idiom.instead.as_bytes()),
            Status::Done,
            "portable\n",
        )?;
    }
    Ok(())
}

#[test]
fn calls_and_steps(rt: HostRuntime) -> Result<(), Fail> {
    let table = [
        Idiom {
            common: "int f(void) { return 1; }\n\
                int main(void) {\n\
                int x;\n\
                x = f() + 1;\n\
                ep_out_i32(x);\n\
                }\n",
            refusal: "4: refused 18 call-in-expression\n",
            instead: "int f(void) { return 1; }\n\
                int main(void) {\n\
                int x;\n\
                x = f();\n\
                x = x + 1;\n\
                ep_out_i32(x);\n\
                }\n",
        },
        Idiom {
            common: "int f(void) { return 1; }\n\
                void g(int n) { ep_out_i32(n); }\n\
                int main(void) {\n\
                g(f());\n\
                }\n",
            refusal: "4: refused 18 call-in-expression\n",
            instead: "int f(void) { return 1; }\n\
                void g(int n) { ep_out_i32(n); }\n\
                int main(void) {\n\
                int n = f();\n\
                g(n);\n\
                }\n",
        },
        Idiom {
            common: "int f(void) { return 1; }\n\
                int main(void) {\n\
                if (f()) {\n\
                ep_out_u8(1);\n\
                }\n\
                }\n",
            refusal: "3: refused 18 call-in-expression\n",
            instead: "int f(void) { return 1; }\n\
                int main(void) {\n\
                int n;\n\
                n = f();\n\
                if (n) {\n\
                ep_out_u8(1);\n\
                }\n\
                }\n",
        },
        Idiom {
            common: "int f(void) { return 1; }\n\
                int g(void) { return f(); }\n\
                int main(void) {\n\
                int n = g();\n\
                return n;\n\
                }\n",
            refusal: "2: refused 18 call-in-expression\n",
            instead: "int f(void) { return 1; }\n\
                int g(void) {\n\
                int n = f();\n\
                return n;\n\
                }\n\
                int main(void) {\n\
                int n = g();\n\
                return n;\n\
                }\n",
        },
        Idiom {
            common: "int main(void) {\n\
                uint8_t a[2] = { 1, 2 };\n\
                uint8_t *p = a;\n\
                uint8_t x;\n\
                x = *p++;\n\
                ep_out_u8(x);\n\
                }\n",
            refusal: "5: refused 19 assignment-in-expression\n",
            instead: "int main(void) {\n\
                uint8_t a[2] = { 1, 2 };\n\
                uint8_t *p = a;\n\
                uint8_t x;\n\
                x = *p;\n\
                p++;\n\
                ep_out_u8(x);\n\
                }\n",
        },
        Idiom {
            common: "int main(void) {\n\
                uint8_t a[2];\n\
                int i = 0;\n\
                a[i++] = 1;\n\
                ep_out_u8(a[0]);\n\
                }\n",
            refusal: "4: refused 19 assignment-in-expression\n",
            instead: "int main(void) {\n\
                uint8_t a[2];\n\
                int i = 0;\n\
                a[i] = 1;\n\
                i++;\n\
                ep_out_u8(a[0]);\n\
                }\n",
        },
        Idiom {
            common: "int main(void) {\n\
                uint8_t n = 3;\n\
                while (n--) {\n\
                ep_out_u8(7);\n\
                }\n\
                }\n",
            refusal: "3: refused 19 assignment-in-expression\n",
            instead: "int main(void) {\n\
                uint8_t n = 3;\n\
                while (n != 0) {\n\
                n--;\n\
                ep_out_u8(7);\n\
                }\n\
                }\n",
        },
        Idiom {
            common: "int main(void) {\n\
                uint8_t x;\n\
                while ((x = ep_in_u8()) != 0) {\n\
                ep_out_u8(x);\n\
                }\n\
                }\n",
            refusal: "3: refused 18 call-in-expression\n",
            instead: "int main(void) {\n\
                uint8_t x;\n\
                x = ep_in_u8();\n\
                while (x != 0) {\n\
                ep_out_u8(x);\n\
                x = ep_in_u8();\n\
                }\n\
                }\n",
        },
        Idiom {
            common: "int main(void) {\n\
                int x, y;\n\
                x = y = 1;\n\
                ep_out_i32(x + y);\n\
                }\n",
            refusal: "3: refused 19 assignment-in-expression\n",
            instead: "int main(void) {\n\
                int x, y;\n\
                y = 1;\n\
                x = y;\n\
                ep_out_i32(x + y);\n\
                }\n",
        },
        Idiom {
            common: "int main(void) {\n\
                int i, j;\n\
                for (i = 0, j = 9; i < j; i++, j--) {\n\
                ep_out_i32(i);\n\
                }\n\
                }\n",
            refusal: "3: refused 10 syntax\n",
            instead: "int main(void) {\n\
                int i, j;\n\
                j = 9;\n\
                for (i = 0; i < j; i++) {\n\
                ep_out_i32(i);\n\
                j--;\n\
                }\n\
                }\n",
        },
    ];
    expect_each(&rt, rt.alloc(), &table)
}

#[test]
fn words_of_c(rt: HostRuntime) -> Result<(), Fail> {
    let table = [
        Idiom {
            common: "int main(void) {\n\
                uint8_t x = ep_in_u8();\n\
                switch (x) {\n\
                case 1:\n\
                ep_out_u8(1);\n\
                break;\n\
                default:\n\
                ep_out_u8(2);\n\
                }\n\
                }\n",
            refusal: "3: refused 8 reserved-word switch\n",
            instead: "int main(void) {\n\
                uint8_t x = ep_in_u8();\n\
                if (x == 1) {\n\
                ep_out_u8(1);\n\
                } else {\n\
                ep_out_u8(2);\n\
                }\n\
                }\n",
        },
        Idiom {
            common: "int main(void) {\n\
                uint8_t x = ep_in_u8();\n\
                if (x == 0) goto done;\n\
                ep_out_u8(x);\n\
                done:\n\
                return 0;\n\
                }\n",
            refusal: "3: refused 8 reserved-word goto\n",
            instead: "int main(void) {\n\
                uint8_t x = ep_in_u8();\n\
                if (x == 0) return 0;\n\
                ep_out_u8(x);\n\
                return 0;\n\
                }\n",
        },
        Idiom {
            common: "enum kind { A, B };\n\
                int main(void) {\n\
                ep_out_u8(B);\n\
                }\n",
            refusal: "1: refused 8 reserved-word enum\n",
            instead: "#define A 0\n\
                #define B 1\n\
                int main(void) {\n\
                ep_out_u8(B);\n\
                }\n",
        },
        Idiom {
            common: "#include <stdbool.h>\n\
                int main(void) {\n\
                bool ready = true;\n\
                if (ready) ep_out_u8(1);\n\
                }\n",
            refusal: "1: refused 6 include\n",
            instead: "int main(void) {\n\
                uint8_t ready = 1;\n\
                if (ready) ep_out_u8(1);\n\
                }\n",
        },
        Idiom {
            common: "void f(int n) { (void)n; }\n\
                int main(void) {\n\
                f(1);\n\
                }\n",
            refusal: "1: refused 32 type-mismatch\n",
            instead: "void f(int n) { }\n\
                int main(void) {\n\
                f(1);\n\
                }\n",
        },
        Idiom {
            common: "int main(void) {\n\
                uint8_t a[4] = { 0 };\n\
                uint8_t *p = a, *q = a + 3;\n\
                int n;\n\
                n = q - p;\n\
                ep_out_i32(n);\n\
                }\n",
            refusal: "5: refused 32 type-mismatch\n",
            instead: "int main(void) {\n\
                uint8_t a[4] = { 0 };\n\
                int p = 0, q = 3;\n\
                int n;\n\
                n = q - p;\n\
                ep_out_i32(n + a[p]);\n\
                }\n",
        },
    ];
    expect_each(&rt, rt.alloc(), &table)
}

#[test]
fn lines_for_the_preprocessor(rt: HostRuntime) -> Result<(), Fail> {
    let table = [
        Idiom {
            common: "#ifndef PACKET_H\n\
                #define PACKET_H 1\n\
                int x;\n\
                #endif\n\
                int main(void) {\n\
                ep_out_i32(x);\n\
                }\n",
            refusal: "1: refused 5 directive\n",
            instead: "int x;\n\
                int main(void) {\n\
                ep_out_i32(x);\n\
                }\n",
        },
        Idiom {
            common: "#include <stdio.h>\n\
                int main(void) {\n\
                }\n",
            refusal: "1: refused 6 include\n",
            instead: "#include <stdint.h>\n\
                int main(void) {\n\
                }\n",
        },
        Idiom {
            common: "#define LOW(x) ((x) & 255)\n\
                int main(void) {\n\
                ep_out_u8(LOW(258));\n\
                }\n",
            refusal: "1: refused 5 directive\n",
            instead: "uint8_t low(int x) { return x & 255; }\n\
                int main(void) {\n\
                uint8_t l = low(258);\n\
                ep_out_u8(l);\n\
                }\n",
        },
        Idiom {
            common: "#define SIZE (4 * 8)\n\
                int main(void) {\n\
                uint8_t a[SIZE] = { 0 };\n\
                ep_out_u8(a[0]);\n\
                }\n",
            refusal: "1: refused 5 directive\n",
            instead: "#define SIZE 32\n\
                int main(void) {\n\
                uint8_t a[SIZE] = { 0 };\n\
                ep_out_u8(a[0]);\n\
                }\n",
        },
        Idiom {
            common: "int main(void) {\n\
                #ifdef BIG\n\
                ep_out_u8(1);\n\
                #endif\n\
                }\n",
            refusal: "2: refused 5 directive\n",
            instead: "int main(void) {\n\
                uint8_t x;\n\
                #if __BYTE_ORDER__ == __ORDER_BIG_ENDIAN__\n\
                x = 1;\n\
                #else\n\
                x = 1;\n\
                #endif\n\
                ep_out_u8(x);\n\
                }\n",
        },
        Idiom {
            common: "int main(void) {\n\
                #if __BYTE_ORDER__ == __ORDER_BIG_ENDIAN__\n\
                int x = 1;\n\
                #else\n\
                int x = 1;\n\
                #endif\n\
                ep_out_i32(x);\n\
                }\n",
            refusal: "3: refused 10 syntax\n",
            instead: "int main(void) {\n\
                int x;\n\
                #if __BYTE_ORDER__ == __ORDER_BIG_ENDIAN__\n\
                x = 1;\n\
                #else\n\
                x = 1;\n\
                #endif\n\
                ep_out_i32(x);\n\
                }\n",
        },
        Idiom {
            common: "#if __BYTE_ORDER__ == __ORDER_LITTLE_ENDIAN__\n\
                int swap(int x) { return x; }\n\
                #endif\n\
                int main(void) {\n\
                int x = swap(1);\n\
                ep_out_i32(x);\n\
                }\n",
            refusal: "1: refused 38 conditional-arms\n",
            instead: "#if __BYTE_ORDER__ == __ORDER_LITTLE_ENDIAN__\n\
                int swap(int x) { return x; }\n\
                #else\n\
                int swap(int x) { return x; }\n\
                #endif\n\
                int main(void) {\n\
                int x = swap(1);\n\
                ep_out_i32(x);\n\
                }\n",
        },
    ];
    expect_each(&rt, rt.alloc(), &table)
}

#[test]
fn lengths_and_first_values(rt: HostRuntime) -> Result<(), Fail> {
    let table = [
        Idiom {
            common: "int main(void) {\n\
                uint8_t a[4] = { 0 }, b[4];\n\
                uint32_t n = 4;\n\
                memcpy(b, a, n);\n\
                ep_out_u8(b[0]);\n\
                }\n",
            refusal: "4: refused 42 length-not-constant\n",
            instead: "int main(void) {\n\
                uint8_t a[4] = { 0 }, b[4];\n\
                uint32_t n = 4, i;\n\
                for (i = 0; i < n; i++) {\n\
                b[i] = a[i];\n\
                }\n\
                ep_out_u8(b[0]);\n\
                }\n",
        },
        Idiom {
            common: "void f(int n) {\n\
                uint8_t a[n];\n\
                a[0] = 0;\n\
                }\n\
                int main(void) {\n\
                f(4);\n\
                }\n",
            refusal: "2: refused 17 array-bound\n",
            instead: "void f(int n) {\n\
                uint8_t a[64];\n\
                a[0] = 0;\n\
                }\n\
                int main(void) {\n\
                f(4);\n\
                }\n",
        },
        Idiom {
            common: "int main(void) {\n\
                static uint8_t count;\n\
                count++;\n\
                ep_out_u8(count);\n\
                }\n",
            refusal: "2: refused 10 syntax\n",
            instead: "static uint8_t count;\n\
                int main(void) {\n\
                count++;\n\
                ep_out_u8(count);\n\
                }\n",
        },
        Idiom {
            common: "struct s { uint8_t low, high; };\n\
                int main(void) {\n\
                struct s x = { .low = 1 };\n\
                ep_out_u8(x.low);\n\
                }\n",
            refusal: "3: refused 10 syntax\n",
            instead: "struct s { uint8_t low, high; };\n\
                int main(void) {\n\
                struct s x = { 1 };\n\
                ep_out_u8(x.low);\n\
                }\n",
        },
        Idiom {
            common: "struct s { uint8_t low, high; };\n\
                int main(void) {\n\
                struct s x;\n\
                x = (struct s){ 1, 2 };\n\
                ep_out_u8(x.low);\n\
                }\n",
            refusal: "4: refused 10 syntax\n",
            instead: "struct s { uint8_t low, high; };\n\
                int main(void) {\n\
                struct s x, y = { 1, 2 };\n\
                x = y;\n\
                ep_out_u8(x.low);\n\
                }\n",
        },
    ];
    expect_each(&rt, rt.alloc(), &table)
}

#[test]
fn types_and_functions(rt: HostRuntime) -> Result<(), Fail> {
    let table = [
        Idiom {
            common: "void g(void) { }\n\
                int main(void) {\n\
                void (*f)(void) = g;\n\
                f();\n\
                }\n",
            refusal: "3: refused 10 syntax\n",
            instead: "void g(void) { }\n\
                int main(void) {\n\
                uint8_t which = 0;\n\
                if (which == 0) g();\n\
                }\n",
        },
        Idiom {
            common: "struct s { uint8_t low : 4, high : 4; };\n\
                int main(void) {\n\
                struct s x = {0};\n\
                ep_out_u8(x.low);\n\
                }\n",
            refusal: "4: refused 51 bit-field-place\n",
            instead: "struct s { uint8_t low : 4, high : 4; };\n\
                int main(void) {\n\
                struct s x = {0};\n\
                uint8_t n;\n\
                n = x.low;\n\
                ep_out_u8(n);\n\
                }\n",
        },
        Idiom {
            common: "struct s { uint8_t low : 4, high : 4; };\n\
                int main(void) {\n\
                struct s x = {0};\n\
                uint8_t n;\n\
                x.low += 1;\n\
                n = x.low;\n\
                ep_out_u8(n);\n\
                }\n",
            refusal: "5: refused 51 bit-field-place\n",
            instead: "struct s { uint8_t low : 4, high : 4; };\n\
                int main(void) {\n\
                struct s x = {0};\n\
                uint8_t n;\n\
                n = x.low;\n\
                x.low = n + 1;\n\
                n = x.low;\n\
                ep_out_u8(n);\n\
                }\n",
        },
        Idiom {
            common: "struct s { uint8_t low : 4, high : 4; };\n\
                int main(void) {\n\
                struct s x = { 1, 2 };\n\
                uint8_t n = x.low;\n\
                ep_out_u8(n);\n\
                }\n",
            refusal: "3: refused 51 bit-field-place\n",
            instead: "struct s { uint8_t low : 4, high : 4; };\n\
                int main(void) {\n\
                struct s x = {0};\n\
                uint8_t n;\n\
                x.low = 1;\n\
                x.high = 2;\n\
                n = x.low;\n\
                ep_out_u8(n);\n\
                }\n",
        },
        Idiom {
            common: "struct s { int low : 4, high : 4; };\n\
                int main(void) {\n\
                struct s x = {0};\n\
                uint8_t n = x.low;\n\
                ep_out_u8(n);\n\
                }\n",
            refusal: "1: refused 9 bit-field\n",
            instead: "struct s { uint8_t low : 4, high : 4; };\n\
                int main(void) {\n\
                struct s x = {0};\n\
                uint8_t n = x.low;\n\
                ep_out_u8(n);\n\
                }\n",
        },
        Idiom {
            common: "void f(volatile uint32_t *status) { ep_out_u32(*status); }\n\
                int main(void) {\n\
                uint32_t s = 1;\n\
                f(&s);\n\
                }\n",
            refusal: "1: refused 8 reserved-word volatile\n",
            instead: "int main(void) {\n\
                uint32_t s;\n\
                s = ep_in_u32();\n\
                ep_out_u32(s);\n\
                }\n",
        },
        Idiom {
            common: "int main(void) {\n\
                uint32_t *r = (uint32_t *)0x40001000;\n\
                ep_out_u32(*r);\n\
                }\n",
            refusal: "2: refused 34 pointer-to-integer\n",
            instead: "int main(void) {\n\
                uint32_t object = 0, *r = &object;\n\
                ep_out_u32(*r);\n\
                }\n",
        },
        Idiom {
            common: "struct __attribute__((packed)) s { uint8_t kind; uint32_t size; };\n\
                int main(void) {\n\
                struct s x = { 1, 2 };\n\
                ep_out_u32(x.size);\n\
                }\n",
            refusal: "1: refused 10 syntax\n",
            instead: "int main(void) {\n\
                uint8_t x[5];\n\
                uint32_t size;\n\
                ep_read(x, 5);\n\
                size = (uint32_t)x[1] << 24 | (uint32_t)x[2] << 16 | (uint32_t)x[3] << 8 | x[4];\n\
                ep_out_u32(size);\n\
                }\n",
        },
        Idiom {
            common: "void f(int n) {\n\
                if (n > 0) f(n - 1);\n\
                }\n\
                int main(void) {\n\
                f(3);\n\
                }\n",
            refusal: "2: refused 35 recursion\n",
            instead: "void f(int n) {\n\
                while (n > 0) n--;\n\
                }\n\
                int main(void) {\n\
                f(3);\n\
                }\n",
        },
        Idiom {
            common: "int main(void) {\n\
                char name[] = \"ep\";\n\
                ep_out_i8(name[0]);\n\
                }\n",
            refusal: "2: refused 4 string-literal\n",
            instead: "int main(void) {\n\
                char name[] = { 'e', 'p', 0 };\n\
                ep_out_i8(name[0]);\n\
                }\n",
        },
        Idiom {
            common: "int main(void) {\n\
                float x = 1;\n\
                ep_out_i32(x);\n\
                }\n",
            refusal: "2: refused 8 reserved-word float\n",
            instead: "int main(void) {\n\
                int32_t x = 1000;\n\
                ep_out_i32(x);\n\
                }\n",
        },
        Idiom {
            common: "extern int x;\n\
                int main(void) {\n\
                ep_out_i32(x);\n\
                }\n",
            refusal: "1: refused 8 reserved-word extern\n",
            instead: "int x;\n\
                int main(void) {\n\
                ep_out_i32(x);\n\
                }\n",
        },
        Idiom {
            common: "struct s { uint8_t a; };\n\
                void f(struct s x) { ep_out_u8(x.a); }\n\
                int main(void) {\n\
                struct s x = { 1 };\n\
                f(x);\n\
                }\n",
            refusal: "2: refused 43 struct-by-value\n",
            instead: "struct s { uint8_t a; };\n\
                void f(struct s *x) { ep_out_u8(x->a); }\n\
                int main(void) {\n\
                struct s x = { 1 };\n\
                f(&x);\n\
                }\n",
        },
        Idiom {
            common: "int main(void) {\n\
                int x = 1;\n\
                printf(\"%d\", x);\n\
                }\n",
            refusal: "3: refused 4 string-literal\n",
            instead: "int main(void) {\n\
                int x = 1;\n\
                ep_out_i32(x);\n\
                }\n",
        },
    ];
    expect_each(&rt, rt.alloc(), &table)
}
