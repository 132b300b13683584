//! Programs that several tests are over.

/// A parameter that is overwritten before it is used.
pub(crate) const OVERWRITTEN: &str = r#"#include <stdio.h>
int g;
void f(int a) {
    a = 5;
    g = a;
}
int main(void) {
    int x = 7;
    f(x + 1);
    printf("%d\n", g);
}
"#;

/// A loop with two calls, one of which calls again (Horwitz, Reps and Binkley 1990).
pub(crate) const ADD: &str = r#"#include <stdio.h>
int add(int a, int b) {
    return a + b;
}
int increment(int z) {
    z = add(z, 1);
    return z;
}
int main(void) {
    int sum = 0;
    int i = 1;
    while (i < 11) {
        sum = add(sum, i);
        i = increment(i);
    }
    printf("%d\n", sum);
    printf("%d\n", i);
}
"#;

/// Two calls that are needed for different parameters.
pub(crate) const PICK: &str = r#"#include <stdio.h>
int g;
int h;
void set(int a, int b) {
    g = a;
    h = b;
}
int main(void) {
    int x = 1;
    int y = 2;
    int u = 3;
    int v = 4;
    set(x, y);
    int k = g;
    set(u, v);
    printf("%d\n", k + h);
    printf("%d\n", u);
}
"#;

/// Three reads, one after another.
pub(crate) const READS: &str = r#"#include <stdio.h>
int main(void) {
    int a = getchar();
    int b = getchar();
    int c = getchar();
    putchar(a);
    putchar(c);
}
"#;

/// Two functions that call each other.
pub(crate) const MUTUAL: &str = r#"#include <stdio.h>
int odd(int n, int a);
int even(int n, int a) {
    int r = 1;
    if (n > 0) {
        r = odd(n - 1, a);
    }
    return r;
}
int odd(int n, int a) {
    int r = a;
    if (n > 0) {
        r = even(n - 1, a);
    }
    return r;
}
int main(void) {
    int c = getchar();
    int e = even(5, 7);
    int o = odd(2, c);
    printf("%d\n", e);
    printf("%d\n", o);
}
"#;

/// A call whose result isn't needed, though what it does is.
pub(crate) const KEPT: &str = "int g;
int f(int a) {
    g = a;
    return a + 1;
}
int main(void) {
    int x = f(3);
    x = g;
    x = x + 1;
}
";

/// A function that is called twice.
pub(crate) const ID: &str = r#"int id(int a) {
return a;
}
int main(void) {
int x = 1;
int y = id(x);
int z = id(2);
}
"#;

/// A function without parameters.
pub(crate) const SET: &str = r#"int g;
void set(void) {
g = 1;
}
int main(void) {
set();
int y = g;
}
"#;

/// A function that two calls enter by different parameters.
pub(crate) const TWO_WAYS: &str = r#"int g;
int h;
void f(int a, int b) {
int t = a;
g = a;
h = t + b;
}
int main(void) {
int x = 1;
f(x, 0);
int y = g;
f(0, x);
int z = h;
y = y + z;
}
"#;

/// Calls three deep.
pub(crate) const THREE_DEEP: &str = r#"int g;
int h;
void one(int a) {
    g = g + a;
}
void two(int b) {
    one(b);
    h = b;
}
void three(int c) {
    two(c);
}
int main(void) {
    int x = 1;
    three(x);
    int y = g;
    int z = h;
}
"#;

/// A function that calls itself.
pub(crate) const TURNS: &str = r#"int g;
void down(int n) {
    if (n > 0) {
        down(n - 1);
        g = g + n;
    }
}
int main(void) {
    int x = 3;
    down(x);
    int y = g;
}
"#;
