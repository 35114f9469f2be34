//! Package files and summaries, with the linking of the first component: the holes, the required names with their identities, and what
//! each include provides.

/// Summaries divided by `;`, each a component, its holes and its provisions; the lines of a library; what is answered.
pub type Row = (&'static [u8], &'static [u8], &'static [u8]);

pub const LINKINGS: [Row; 12] = [
    (
        b"q H M=q[H=<H>]/M",
        b"mixins: q requires (H as B), q (M as N) requires (H as A)",
        b"A B | A=<A> B=<B> | M=q[H=<B>]/M | N=q[H=<A>]/M",
    ),
    (
        b"q Str M=q[Str=<Str>]/M;s Str=s/Str",
        b"build-depends: q, s",
        b" | Str=s/Str | M=q[Str=s/Str]/M | Str=s/Str",
    ),
    (
        b"r H G=<H>",
        b"mixins: r (G as A) requires (H as B)\n  signatures: A",
        b"A | A=<A> B=<A> | A=<A>",
    ),
    (
        b"r H G=<H>",
        b"mixins: r (G as B) requires (H as A)\n  signatures: B",
        b"A | A=<A> B=<A> | B=<A>",
    ),
    (
        b"q H M=q[H=<H>]/M;s H=s/H",
        b"mixins: s (), q ()",
        b"H | H=<H> | | ",
    ),
    (
        b"q H M=q[H=<H>]/M;s H=s/H",
        b"mixins: s hiding (H), q requires (H as K)",
        b"K | K=<K> | | M=q[H=<K>]/M",
    ),
    (
        b"s H=s/H K=s/K;t H=s/H",
        b"build-depends: s, t\n  signatures: H",
        b" | H=s/H | H=s/H K=s/K | H=s/H",
    ),
    (
        b"q H M=q[H=<H>]/M",
        b"mixins: q (M as A) requires (H as X), q (M as A) requires (H as Y)\n  signatures: A",
        b"X | A=q[H=<X>]/M X=<X> Y=<X> | A=q[H=<X>]/M | A=q[H=<X>]/M",
    ),
    (
        b"q H M=q[H=<H>]/M",
        b"mixins: q (M as K) requires (H as H)\n  exposed-modules: M",
        b"H | H=<H> | K=q[H=<H>]/M",
    ),
    (b"s H=s/H", b"signatures: B A", b"A B | A=<A> B=<B>"),
    (b"s H=s/H", b"build-depends: t", b" | | "),
    (
        b"s H=s/H;t H=t/H",
        b"build-depends: s, t",
        b" | | H=s/H | H=t/H",
    ),
];

pub const REFUSALS: [Row; 11] = [
    (b"q H M=q[H=<H>]/M", b"mixins: q (M as H)", b"LinkCycle H"),
    (
        b"s H=s/H;t H=t/H",
        b"build-depends: s, t\n  signatures: H",
        b"LinkClash H",
    ),
    (
        b"s A=s/A B=s/B C=s/C;t A=s/A B=t/B C=t/C",
        b"build-depends: s, t\n  signatures: A B C",
        b"LinkClash B",
    ),
    (
        b"s H=s/H;t H=t/H",
        b"build-depends: s, t\n  signatures: H K\n  other-modules: M",
        b"LinkClash H",
    ),
    (
        b"s H=s/H;t H=t/H;q B A M=q[A=<A>,B=<B>]/M",
        b"build-depends: s, t\n  signatures: H\n  mixins: q ()\n  exposed-modules: B\n  other-modules: A",
        b"unlawful",
    ),
    (
        b"s H=s/H;t H=t/H;q A B M=q[A=<A>,B=<B>]/M",
        b"build-depends: s, t\n  signatures: H\n  mixins: q ()\n  exposed-modules: B\n  other-modules: A",
        b"NameTaken A",
    ),
    (b"q H M=q[H=<H>]/M", b"mixins: q (K, L)", b"NoProvision q K"),
    (
        b"q H M=q[H=<H>]/M",
        b"mixins: q (M) requires (M as L)",
        b"NoRequirement q M",
    ),
    (
        b"q H M=q[H=<H>]/M",
        b"mixins: q (K) requires (K as L)",
        b"NoProvision q K",
    ),
    (
        b"q H M=q[H=<H>]/M",
        b"mixins: q requires (K as L), q (L)\n  exposed-modules: H",
        b"NoRequirement q K",
    ),
    (b"q H M=q[H=<K>]/M", b"build-depends: q", b"unlawful"),
];
