//! Tests of runs.

// C text with its values, its checks and its runs, on the machines of all stages.

use crate::machines::end_so;
use interleave::Outcome;
use std::alloc::{AllocError, Global};
use std::test::*;
use words::{Check, Class};

// Rows "NUMBERS@BEFORE@EXPRESSION": the numbers x and y, declarations and statements, and an expression
// behind them whose value is z (C11 6.5).
const VALUES: &str = "\
x=3,y=4,z=7@@x+y
x=3,y=4,z=-1@@x-y
x=-3,y=4,z=-12@@x*y
x=-7,y=2,z=-3@@x/y
x=-7,y=2,z=-1@@x%y
x=3,y=4,z=48@@x<<y
x=3,y=29,z=1610612736@@x<<y
x=-8,y=1,z=-4@@x>>y
x=2147483647,y=31,z=0@@x>>y
x=12,y=10,z=8@@x&y
x=12,y=10,z=14@@x|y
x=12,y=10,z=6@@x^y
x=-1,y=1,z=1@@x<y
x=-1,y=1,z=0@@x>y
x=4,y=4,z=1@@x<=y
x=3,y=4,z=0@@x>=y
x=4,y=4,z=1@@x==y
x=4,y=4,z=0@@x!=y
x=2,y=4,z=1@@x&&y
x=2,y=0,z=0@@x&&y
x=0,y=4,z=0@@x&&y/x
x=0,y=5,z=1@@x||y
x=0,y=0,z=0@@x||y
x=3,y=0,z=1@@x||y/x
x=1,y=4,z=4@@x?y:9
x=0,y=4,z=9@@x?y/x:9
x=5,y=0,z=-5@@-x
x=-5,y=0,z=-5@@+x
x=5,y=0,z=-6@@~x
x=0,y=0,z=1@@!x
x=5,y=0,z=0@@!x
x=1,y=2,z=2@@x=y
x=1,y=2,z=3@@x=y=3
x=1,y=2,z=4@@(x=y,x+y)
x=3,y=4,z=7@@x+=y
x=3,y=4,z=-1@@x-=y
x=3,y=4,z=12@@x*=y
x=7,y=-2,z=-3@@x/=y
x=7,y=-2,z=1@@x%=y
x=3,y=4,z=48@@x<<=y
x=48,y=4,z=3@@x>>=y
x=12,y=10,z=8@@x&=y
x=12,y=10,z=6@@x^=y
x=12,y=10,z=14@@x|=y
x=3,y=4,z=14@@x+=x+=y
x=5,y=0,z=5@@x++
x=5,y=0,z=6@@(x++,x)
x=5,y=0,z=6@@++x
x=5,y=0,z=5@@x--
x=5,y=0,z=4@@(x--,x)
x=5,y=0,z=4@@--x
x=5,y=4,z=9@@x+++y
x=-1,y=0,z=0@@x<1u
x=-1,y=0,z=1@@x<1l
x=2147483647,y=0,z=1@@x+1l>2147483647
x=0,y=0,z=1@@x-1u==4294967295u
x=0,y=0,z=-1@@x=4294967295u
x=5,y=0,z=4@@x+=4294967295u
x=1,y=2,z=2@@(x>0)+(y>0)
x=1,y=0,z=1@@x>0?x>1?2:1:0";

// The same of expressions that promote (C11 6.3.1.1, 6.5).
const PROMOTIONS: &str = "\
x=100,y=100,z=200@@(char)x+(char)y
x=200,y=0,z=-56@@(signed char)x
x=-1,y=0,z=255@@(unsigned char)x
x=32768,y=0,z=-32768@@(short)x
x=-1,y=0,z=65535@@(unsigned short)x
x=200,y=0,z=1@@(char)x<0
x=200,y=0,z=0@@(unsigned char)x<0
x=-56,y=0,z=1@@(char)x==x
x=-56,y=0,z=0@@(unsigned char)x==x
x=255,y=255,z=65025@@(unsigned char)x*(unsigned char)y
x=300,y=-2,z=-600@@(unsigned short)x*(short)y
x=1,y=0,z=-1@@-(unsigned char)x
x=0,y=0,z=-1@@~(unsigned char)x
x=-1,y=0,z=0@@~(short)x
x=300,y=0,z=44@@+(char)x
x=256,y=0,z=1@@!(char)x
x=255,y=4,z=4080@@(unsigned char)x<<y
x=-4,y=1,z=-2@@(short)x>>y
x=-4,y=1,z=32766@@(unsigned short)x>>y
x=2,y=0,z=1@@(_Bool)x
x=0,y=0,z=0@@(_Bool)x
x=5,y=7,z=2@@(_Bool)x+(_Bool)y
x=256,y=0,z=0@@(_Bool)(char)x
x=9,y=0,z=-1@@-(_Bool)x
x=-128,y=-1,z=128@@(char)x/(char)y
x=-7,y=3,z=-1@@(char)x%(char)y
x=250,y=10,z=4@@(unsigned char)(x+y)
x=100,y=3,z=44@@(char)(x*y)
x=1,y=2,z=-1@@(unsigned char)x-(unsigned char)y";

// The same of the usual arithmetic conversions and of shifts (C11 6.3.1.8).
const COMMON_TYPES: &str = "\
x=-1,y=0,z=0@@x<0u
x=-1,y=0,z=1@@x>0u
x=0,y=0,z=0@@-1<1u
x=0,y=0,z=1@@-1<1l
x=-1,y=0,z=1@@(long)x<1u
x=-2,y=0,z=1@@(long)x+1u<0
x=-1,y=0,z=1@@x/2u==2147483647u
x=-1,y=0,z=0@@x%3u
x=-1,y=0,z=1@@(unsigned)x>>31
x=-1,y=0,z=-1@@x>>31
x=65536,y=65536,z=65536@@(long)x*y/65536
x=-1,y=0,z=1@@(unsigned long)x>>32==4294967295u
x=-1,y=0,z=0@@(unsigned)x+1
x=-1,y=0,z=1@@(unsigned)x*2u==4294967294u
x=-1,y=0,z=0@@x==4294967295
x=-1,y=0,z=1@@x==4294967295u
x=-1,y=0,z=1@@(unsigned)x==4294967295
x=-1,y=0,z=0@@(unsigned char)x==-1
x=255,y=0,z=1@@(signed char)x==-1
x=-1,y=1,z=1@@(short)x<(unsigned short)y
x=-1,y=1,z=0@@(unsigned)x<(long)y
x=-1,y=1,z=0@@(unsigned long)x<(long)y
x=1,y=-1,z=0@@(unsigned)x>(short)y
x=1,y=0,z=1@@(x?-1:0u)>0
x=1,y=0,z=1@@(x?-1:0l)<0
x=-1,y=0,z=0@@(y,x)<0u
x=5,y=0,z=5@@1?x:0u
x=0,y=0,z=1@@(0?0u:-1)/2==2147483647
x=-1,y=0,z=1@@(unsigned long)x/2>2147483647
x=-2147483648,y=0,z=1@@(long long)x-1<(long)x
x=1073741824,y=0,z=1@@(unsigned)x<<1==2147483648u
x=40,y=38,z=4@@1ul<<x>>y
x=-8,y=1,z=2147483644@@(unsigned)x>>y
x=-8,y=1,z=-4@@x>>(unsigned char)y
x=-5,y=1,z=-3@@(long)x>>y
x=7,y=0,z=7@@x&4294967295u
x=-1,y=0,z=1@@(x|0l)<0
x=-1,y=0,z=1@@(x^1ul)==18446744073709551614ul
x=0,y=1,z=0@@x-0u>y";

// The same of casts, constants and assignments (C11 6.3.1.2, 6.3.1.3, 6.4.4, 6.5.16).
const CONVERSIONS: &str = "\
x=0,y=0,z=44@@(x=300,(unsigned char)x)
x=200,y=0,z=-56@@(signed char)(unsigned char)x
x=200,y=0,z=1@@(unsigned)(signed char)x==4294967240u
x=-7,y=0,z=-7@@(int)(long)x
x=0,y=0,z=-1@@(int)4294967295u
x=0,y=0,z=0@@(int)4294967296
x=0,y=0,z=-1@@(int)9223372036854775807
x=0,y=0,z=0@@(short)65536
x=0,y=0,z=-25536@@(short)40000
x=0,y=0,z=65535@@(unsigned short)-1
x=0,y=0,z=127@@(char)-129
x=0,y=0,z=1@@(_Bool)0x100
x=0,y=0,z=1@@(_Bool)4294967296
x=0,y=0,z=1@@(unsigned long)-1==18446744073709551615u
x=-1,y=0,z=1@@(long)(unsigned)x==4294967295
x=-1,y=0,z=1@@(long)x==-1
x=-1,y=0,z=255@@(unsigned long)(unsigned char)x
x=255,y=0,z=-1@@(long)(signed char)x
x=-1,y=0,z=1@@(size_t)x>0
x=255,y=0,z=-1@@(int8_t)x
x=-1,y=0,z=255@@(uint8_t)x
x=65535,y=0,z=-1@@(int16_t)x
x=-1,y=0,z=65535@@(uint16_t)x
x=-1,y=0,z=1@@(uint64_t)x>>63
x=-1,y=0,z=-1@@(int64_t)x>>63
x=-1,y=0,z=1@@(uint32_t)x>>31
x=-1,y=0,z=1@@(ptrdiff_t)x<0
x=0,y=0,z=97@@'a'
x=0,y=0,z=-1@@'\\377'
x=0,y=0,z=1@@'\\x80'<0
x=0,y=0,z=24@@010+0x10
x=0,y=0,z=1@@0xffffffff>0
x=1,y=0,z=0@@0xffffffff+x
x=0,y=0,z=1@@2147483648>0
x=0,y=0,z=1@@-2147483648<0
x=0,y=0,z=0@@-2147483648==2147483648u
x=0,y=0,z=0@@4294967295u+1
x=0,y=0,z=0@@18446744073709551615ul+1
x=1,y=511,z=256@@x+=(unsigned char)y
x=5,y=0,z=6@@x-=4294967295u
x=6,y=0,z=12@@x*=2l
x=-2,y=0,z=2147483647@@x/=2u
x=-7,y=0,z=-2@@x%=5l
x=1,y=3,z=8@@x<<=(char)y
x=-8,y=0,z=-4@@x>>=1u
x=-1,y=0,z=255@@x&=255ul
x=1,y=0,z=257@@x|=256u
x=5,y=0,z=-6@@x^=-1l
x=200,y=0,z=-56@@x=y=(char)x";

// The same of `sizeof` (C11 6.5.3.4).
const SIZES: &str = "\
x=0,y=0,z=15@@sizeof(char)+sizeof(short)+sizeof(int)+sizeof(long)
x=0,y=0,z=8@@sizeof(long long)*sizeof(_Bool)
x=3,y=0,z=7@@sizeof x++ + x
x=1,y=0,z=4@@sizeof(x/0)
x=0,y=0,z=1@@sizeof((char)x)
x=0,y=0,z=4@@sizeof(+(char)x)
x=0,y=0,z=8@@sizeof((char)x+1l)
x=0,y=0,z=4@@sizeof 1u
x=0,y=0,z=8@@sizeof 1ul
x=0,y=0,z=4@@sizeof 'a'
x=0,y=0,z=8@@sizeof(x?1:1l)
x=0,y=0,z=4@@sizeof(x<1l)
x=0,y=0,z=8@@sizeof(1l<<x)
x=0,y=0,z=4@@sizeof(1<<1l)
x=0,y=0,z=4@@sizeof \"abc\"
x=0,y=0,z=12@@sizeof(int[3])
x=0,y=0,z=10@@sizeof(char[2][5])
x=8,y=0,z=1@@sizeof 1<x
x=0,y=0,z=0@@-sizeof(int)<0
x=0,y=0,z=8@@sizeof(sizeof(int))
x=0,y=0,z=2@@sizeof(signed short)
x=0,y=0,z=4@@sizeof(const unsigned volatile)
x=0,y=0,z=8@@sizeof(long int long unsigned)
x=0,y=0,z=15@@sizeof(char([3])[5])
x=0,y=0,z=8@@sizeof(size_t)
x=0,y=0,z=4@@sizeof(pthread_mutex_t)
x=0,y=0,z=8@@sizeof(int[1?2:1/0])
x=0,y=0,z=6@@sizeof(\"a\\x41\\1234\\n\" \"\")
x=0,y=0,z=44@typedef unsigned char U;@sizeof(char[(U)300])
x=0,y=0,z=2147483640@typedef int A[3];@sizeof(A[536870912/3])
x=0,y=0,z=12@typedef int T[3];typedef int T[3];#@sizeof(T)
x=0,y=0,z=48@typedef int T[2][3];T b[2];@sizeof b
x=0,y=0,z=4@typedef struct S T;struct S{int a;};#@sizeof(T)
x=0,y=0,z=24@struct S{char a;long b;short c;};#@sizeof(struct S)
x=0,y=0,z=36@struct S{int a[2][3];union{char c[9];int i;};};#@sizeof(struct S)
x=0,y=0,z=4@union U{struct{char a,b,c;}s;short t;};#@sizeof(union U)
x=0,y=0,z=16@struct S{enum{A=3}e;int a[A];};#@sizeof(struct S)
x=0,y=0,z=12@typedef struct{char a;}T;struct S{T a[5],b;int c;};#@sizeof(struct S)
x=0,y=0,z=4@struct S{int;int a;};#@sizeof(struct S)
x=0,y=0,z=1@struct S{int a;};#struct S{char c;};@sizeof(struct S)
x=0,y=0,z=32@struct{int c,a;const char b;int n[3];struct{int a,b;}s;}r;@sizeof r
x=0,y=0,z=20@struct{int a,n[3];struct{char b;}i;}v,w;@sizeof(v=w)";

// The same of members (C11 6.5.2.3, 6.7.2.1).
const MEMBERS: &str = "\
x=300,y=5,z=49@struct{char a;int b;}s;s.a=x;s.b=y;@s.a+s.b
x=-1,y=0,z=255@struct{unsigned char a;}s;s.a=x;@s.a
x=-3,y=0,z=9@struct{short a,b;}s;s.a=s.b=x;@s.a*s.b
x=9,y=4,z=5@struct{int a;struct{int b,c;}d;}s;s.d.b=x;s.d.c=y;s.a=s.d.b-s.d.c;@s.a
x=513,y=0,z=2@struct{int a;struct{int b;union{int c;char d;};};}s;s.b=1;s.c=x;@s.d+s.b
x=-2,y=0,z=65534@union{int i;unsigned short h;}u;u.i=x;@u.h
x=16909060,y=5,z=16909061@union{int i;char c;}u;u.i=x;u.c=y;@u.i
x=256,y=0,z=0@union{unsigned u;_Bool b;}v;v.u=x;@v.b
x=2,y=0,z=1@union{unsigned u;_Bool b;}v;v.u=x;@v.b
x=7,y=-3,z=-3@union{long l;struct{int a,b;};}u;u.a=x;u.b=y;@u.l>>32
x=16909060,y=0,z=26@union{struct{char a,b,c,d;};int i;}u;u.i=x;@u.a+u.b*2+u.c*4+u.d*8
x=4,y=0,z=1@struct{_Bool b;}s;s.b=x;@s.b
x=3,y=4,z=8@struct{int a;}s;s.a=x;s.a+=y;s.a++;@s.a--
x=255,y=0,z=0@struct{unsigned char c;}s;s.c=x;@++s.c
x=0,y=0,z=0@struct{unsigned char c;}s;s.c=x;@s.c--
x=127,y=1,z=-128@struct{signed char c;}s;s.c=x;s.c+=y;@s.c
x=1,y=0,z=25@struct{char a;long b;short c;}s;s.b=x;@sizeof s+s.b
x=1,y=0,z=13@struct{char a;short b;char c;}s;s.c=x;@sizeof s*sizeof s.b+s.c
x=0,y=0,z=9@union{char a;short b;long c;}s;s.c=x;@sizeof s+sizeof s.a
x=0,y=0,z=28@struct{int a[3];char c;}s;s.c=1;@sizeof s+sizeof s.a
x=0,y=0,z=19@struct{struct{char c[5];}a;int b;}s;s.b=2;@sizeof s+sizeof s.a+s.b
x=0,y=0,z=28@int a[7];@sizeof a
x=0,y=0,z=6@char a[2][3];@sizeof a
x=5,y=0,z=5@struct S{int a;};typedef struct S T;T t;t.a=x;@t.a
x=9,y=0,z=6@enum E{A,B=5,C}e=C;@e+A*x
x=0,y=0,z=255@enum{A=-1}; unsigned char c=A;@c
x=250,y=10,z=4@typedef unsigned char byte;byte b=x;b+=y;@b
x=4,y=0,z=5@const int k=x;@k+1";

// The same of structure values and initializers (C11 6.5.16.1, 6.7.9).
const STRUCTURES: &str = "\
x=4,y=5,z=9@struct S{int a;char b;}s={x,y},t;t=s;@t.a+t.b
x=4,y=5,z=4@struct S{int a,b;}s={x},t=s;@t.a+t.b
x=0,y=0,z=4@struct S{int a,b;}s={1,2},t={3,4};@(x?s:t).b
x=1,y=0,z=1@struct S{int a,b;}s={1,2},t={3,4};@(x?s:t).a
x=0,y=0,z=3@struct S{int a,b;}s={1,2},t;@(t=s).b+t.a
x=0,y=0,z=11@struct S{int a,b;}s={1,2};@(x=9,s).b+x
x=0,y=0,z=2@struct S{int a;}s={1},t={2},u;u=t=s;@u.a+t.a
x=300,y=5,z=52@struct{char a;int b;struct{short c,d;}e;}s={x,y,{1,2}};@s.a+s.b+s.e.c+s.e.d
x=3,y=0,z=34@struct{int a,b;}s={x++,x};@s.a*10+s.b
x=513,y=0,z=1@union{int i;char c;}u={x};@u.c
x=513,y=0,z=1@union{char c;int i;}u={x};@u.i
x=1,y=2,z=2@struct{int a[2];int b;}s={{x},y};@s.b
x=257,y=7,z=8@struct{union{int i;char c;};int b;}s={{x},y};@s.c+s.b
x=0,y=0,z=4@char s[4]=\"abc\";@sizeof s
x=0,y=0,z=4@char s[]=\"abc\";@sizeof s
x=0,y=0,z=12@int a[]={1,2,3};@sizeof a
x=0,y=0,z=3@char s[3]=\"abc\";@sizeof s
x=0,y=0,z=1@union{char s[4];int i;}u={\"abc\"};@u.i==0x636261
x=0,y=0,z=0@union{char s[8];struct{int i,j;};}u={\"abc\"};@u.j
x=1,y=2,z=513@union{char s[4];int i;}u={{x,y}};@u.i
x=4,y=0,z=4@int i={x};@i
x=511,y=0,z=255@struct{unsigned char c;}s={x};@s.c
x=8,y=0,z=1@struct{_Bool b;}s={x};@s.b
x=0,y=0,z=1@struct S{int a;}s={1};(void)s;s;(void)x;@s.a
x=3,y=4,z=7@struct S{struct{int a;}t;int b;}s={{x},y},q=s;q.t=s.t;@q.t.a+q.b
x=4,y=0,z=5@struct S{int a;}s={1};struct T{struct S s;int b;}t={s,x};@t.s.a+t.b
x=3,y=4,z=4@struct S{int a;struct{int b;}t;}s={x,{y}};@(x,s).t.b
x=7,y=0,z=27@struct S{char a;int b;}s={1,2},t;t=s;t.b=x;@s.b*10+t.b";

// The same of static objects (C11 6.2.2, 6.2.4p3, 6.7.9p10); what stands outside of main ends with '#'.
const OBJECTS: &str = "\
x=3,y=4,z=7@static int s=3;@s+y
x=3,y=4,z=7@static int s;s=x;s+=y;@s
x=0,y=0,z=0@static int s;@s
x=0,y=0,z=12@static int s=5;int t=7;s=t+s;@s
x=1,y=0,z=13@static int s=1;{static int s=3;s=s*4;x=x+s;}@x*s
x=4,y=0,z=1@static int s=1;{int s=x+4;s++;}@s
x=2,y=0,z=5@int s=x;{static int s=3;y=s;}@s+y
x=1,y=2,z=3@static int s=1,t=2;@s+t
x=0,y=0,z=6@static struct S{int a;char b;}s={1,5},t;t=s;@t.a+t.b
x=9,y=0,z=59@static struct{char c;int i;}s={5};s.i=x;@s.c*10+s.i
x=0,y=0,z=25185@static union{char s[4];int i;}u={\"ab\"};@u.i
x=0,y=0,z=65@static int s=6;@s*10+s++-1
x=7,y=0,z=1@static _Bool b;b=x;@b
x=300,y=0,z=44@static unsigned char c=1;c=x;@c
x=3,y=0,z=8@int g=5;#g+=x;@g
x=3,y=4,z=34@int g,h;#g=x;h=y;@g*10+h
x=0,y=0,z=0@int g;int g;#@g
x=0,y=0,z=7@int g;int g=7;extern int g;#@g
x=2,y=0,z=7@int g=7;#int g=x;{extern int g;y=g;}@y
x=2,y=0,z=2@int g=7;#int g=x;@g
x=0,y=0,z=75@static int g=7;#{static int g=5;x=g;}@g*10+x
x=0,y=0,z=6@struct P{int a,b;};struct P p={2,3};struct P q;#q=p;@q.a*q.b
x=0,y=0,z=12@extern int a[];int a[3];#@sizeof a
x=0,y=0,z=3@const int g=3;#@g
x=4,y=0,z=4@int g=1;#g=x;{int g=9;g++;}@g
x=0,y=0,z=-1@const int g=-1;#@g
x=0,y=0,z=3@int g;int g;int g=3;#@g
x=0,y=0,z=2@extern int g=2;#@g
x=0,y=0,z=4@int g=sizeof g;#@g
x=0,y=0,z=8@int g[]={1,2};#@sizeof g
x=0,y=0,z=3@char g[]=\"ab\";#@sizeof g
x=0,y=0,z=12@struct{char a;int b;}g={1,2};#@g.a*10+g.b
x=0,y=0,z=9@enum{A,B=5,C};@B+C-2*A-2
x=0,y=0,z=-1@enum{A=-1,B};#@A-B
x=0,y=0,z=44@enum{A=(unsigned char)300};#@A
x=0,y=0,z=2@enum{A=1?2:1/0,B=0&&1/0};#@A+B
x=0,y=0,z=7@enum{A}f;enum{B=7};@B+f*0";

// An expression over x and y, their numbers, and the check that it breaks.
static BREAKS: [(&str, i32, i32, Class); 22] = [
    ("x+y", 2147483647, 1, Class::Overflow),
    ("x-y", -2147483648, 1, Class::Overflow),
    ("x*y", 65536, 32768, Class::Overflow),
    ("x/y", 1, 0, Class::Division),
    ("x%y", 1, 0, Class::Division),
    ("x/y", -2147483648, -1, Class::Overflow),
    ("x%y", -2147483648, -1, Class::Overflow),
    ("x<<y", 1, 32, Class::Shift),
    ("x<<y", 1, 31, Class::Shift),
    ("x<<y", -1, 1, Class::Shift),
    ("x<<y", 1, -1, Class::Shift),
    ("x>>y", 1, 32, Class::Shift),
    ("x>>y", 1, -1, Class::Shift),
    ("-x", -2147483648, 0, Class::Overflow),
    ("x++", 2147483647, 0, Class::Overflow),
    ("--x", -2147483648, 0, Class::Overflow),
    ("x+=y", 2147483647, 1, Class::Overflow),
    ("x/=y", 1, 0, Class::Division),
    ("x<<=y", 1, 40, Class::Shift),
    ("x||y/x", 0, 1, Class::Division),
    ("x&&y/(x-1)", 1, 1, Class::Division),
    ("x?x:y/x", 0, 1, Class::Division),
];

// A text, what it draws, and the check that it breaks, with its line.
type Run = (&'static str, i32, i32, i32, Option<(Class, u32)>);

static RUNS: [Run; 28] = [
    (
        "int main(void){int x=nondet_int();assert(x!=7);return 0;}",
        7,
        0,
        0,
        Some((Class::Assertion, 1)),
    ),
    (
        "int main(void){int x=nondet_int();assert(x!=7);return 0;}",
        8,
        0,
        0,
        None,
    ),
    (
        "int main(void){int x=nondet_int();assert(x!=8);return 0;}",
        7,
        0,
        0,
        None,
    ),
    (
        "int main(void){int x=nondet_int();if(x>0)x=x+1;return 0;}",
        2147483647,
        0,
        0,
        Some((Class::Overflow, 1)),
    ),
    (
        "int main(void){int x=nondet_int();if(x>0)x=x+1;return 0;}",
        -2147483648,
        0,
        0,
        None,
    ),
    (
        "int main(void){int x=nondet_int();if(x>0)x=x-1;return 0;}",
        2147483647,
        0,
        0,
        None,
    ),
    (
        "int main(void){int d=nondet_int();__CPROVER_assume(d==-1);return (-2147483647-1)/d;}",
        -1,
        0,
        0,
        Some((Class::Overflow, 1)),
    ),
    (
        "int main(void){int d=nondet_int();__CPROVER_assume(d==-1);return (-2147483647-1)/d;}",
        1,
        0,
        0,
        None,
    ),
    (
        "int main(void){int d=nondet_int();__CPROVER_assume(d==0);return (-2147483647-1)/d;}",
        0,
        0,
        0,
        Some((Class::Division, 1)),
    ),
    (
        "int main(void){int x;assert(x!=7);return 0;}",
        7,
        0,
        0,
        Some((Class::Assertion, 1)),
    ),
    ("int main(void){int x;assert(x!=7);}", 6, 0, 0, None),
    (
        "int main(void){int x=x;\nassert(x!=7);}",
        7,
        0,
        0,
        Some((Class::Assertion, 2)),
    ),
    (
        "int main(void){int x=1;{int x;assert(x!=7);}assert(x==1);}",
        7,
        0,
        0,
        Some((Class::Assertion, 1)),
    ),
    (
        "int main(void){int x,y;assert(x-y!=7);}",
        9,
        2,
        0,
        Some((Class::Assertion, 1)),
    ),
    ("int main(void){int x,y;assert(x-y!=7);}", 2, 9, 0, None),
    (
        "int main(void){int y=nondet_int(),x;assert(x-y!=7);}",
        9,
        2,
        0,
        Some((Class::Assertion, 1)),
    ),
    (
        "int main(void){int x;if(x)\nassert(x>0);else\nassert(0);}",
        0,
        0,
        0,
        Some((Class::Assertion, 3)),
    ),
    (
        "int main(void){int x;if(x)\nassert(x>0);else\nassert(0);}",
        -1,
        0,
        0,
        Some((Class::Assertion, 2)),
    ),
    (
        "int main(void){int x;if(x)\nassert(x>0);else\nassert(0);}",
        1,
        0,
        0,
        None,
    ),
    (
        "int main(void){int x;if(x){if(x>5){return 0;}else x=3;}\nassert(x==3);}",
        4,
        0,
        0,
        None,
    ),
    (
        "int main(void){int x;if(x){if(x>5){return 0;}else x=3;}\nassert(x==3);}",
        6,
        0,
        0,
        None,
    ),
    (
        "int main(void){int x;if(x){if(x>5){return 0;}else x=3;}\nassert(x==3);}",
        0,
        0,
        0,
        Some((Class::Assertion, 2)),
    ),
    (
        "int main(void){int x;if(x>5)if(x>7){}else\nassert(0);}",
        6,
        0,
        0,
        Some((Class::Assertion, 2)),
    ),
    (
        "int main(void){int x;if(x>5)if(x>7){}else\nassert(0);}",
        5,
        0,
        0,
        None,
    ),
    ("int main(void){return 0;\nassert(0);}", 0, 0, 0, None),
    (
        "int main(void){{}\nassert(0);}",
        0,
        0,
        0,
        Some((Class::Assertion, 2)),
    ),
    (
        "int main(void){__CPROVER_assume(0);assert(0);}",
        0,
        0,
        0,
        None,
    ),
    (
        "int main(void){nondet_int();\nassert(nondet_int()!=7);}",
        1,
        7,
        0,
        Some((Class::Assertion, 2)),
    ),
];

// The text that draws x, y and z and asserts that an expression is z.
fn equation(alloc: Global, expression: &str) -> Result<String, AllocError> {
    format!(in alloc;
        "int main(void){{int x=nondet_int(),y=nondet_int(),z=nondet_int();assert(({expression})==z);return 0;}}"
    )
}

fn broken(class: Class, line: u32) -> Outcome {
    Outcome::Broken(Check {
        class,
        line,
        function: 0,
        thread: 0,
    })
}

// The text of a row, which asserts that its expression is a number.
fn row_text(alloc: Global, row: &str, number: &str) -> Result<String, AllocError> {
    let (numbers, rest) = row.split_once('@').unwrap_or((row, ""));
    let (before, expression) = rest.split_once('@').unwrap_or(("", rest));
    let (outside, before) = before.split_once('#').unwrap_or(("", before));
    format!(in alloc;
        "{outside}int main(void){{int {numbers};{{{before}assert(({expression})=={number});}}return 0;}}"
    )
}

// Whether a row's expression is z and nothing else, on each machine, and also where variables have an address.
fn holds(alloc: Global, row: &str) -> Result<bool, Fail> {
    let right = row_text(alloc, row, "z")?;
    let held = end_so(alloc, right.as_str().as_bytes(), &[], Outcome::Fine)?;
    let other = row_text(alloc, row, "(z^1)")?;
    let wrong = broken(Class::Assertion, 1);
    Ok(held && end_so(alloc, other.as_str().as_bytes(), &[], wrong)?)
}

// The first row that has another value, if one has.
fn first_wrong(alloc: Global, rows: &'static str) -> Result<Option<&'static str>, Fail> {
    for row in rows.lines() {
        if !holds(alloc, row)? {
            return Ok(Some(row));
        }
    }
    Ok(None)
}

#[test]
fn numbers_have_their_values(rt: HostRuntime) -> Result<(), Fail> {
    for rows in [VALUES, PROMOTIONS, COMMON_TYPES] {
        assert_eq!(rt; first_wrong(rt.alloc(), rows)?, None);
    }
    Ok(())
}

#[test]
fn conversions_have_their_values(rt: HostRuntime) -> Result<(), Fail> {
    for rows in [CONVERSIONS, SIZES] {
        assert_eq!(rt; first_wrong(rt.alloc(), rows)?, None);
    }
    Ok(())
}

#[test]
fn objects_have_their_values(rt: HostRuntime) -> Result<(), Fail> {
    for rows in [MEMBERS, STRUCTURES, OBJECTS] {
        assert_eq!(rt; first_wrong(rt.alloc(), rows)?, None);
    }
    Ok(())
}

// The first row whose operation breaks another check, or none.
fn wrong_break(alloc: Global, rows: &[(&str, i32, i32, Class)]) -> Result<Option<usize>, Fail> {
    for (i, (expression, x, y, class)) in rows.iter().enumerate() {
        let text = equation(alloc, expression)?;
        if !end_so(
            alloc,
            text.as_str().as_bytes(),
            &[*x, *y, 0],
            broken(*class, 1),
        )? {
            return Ok(Some(i));
        }
    }
    Ok(None)
}

#[test]
fn operations_break_their_checks(rt: HostRuntime) -> Result<(), Fail> {
    assert_eq!(rt; wrong_break(rt.alloc(), &BREAKS)?, None);
    Ok(())
}

// How a run ends that breaks this check, or none.
fn ending(check: Option<(Class, u32)>) -> Outcome {
    match check {
        Some((class, line)) => broken(class, line),
        None => Outcome::Fine,
    }
}

// The first row whose run ends otherwise.
fn wrong_run(alloc: Global, rows: &[Run]) -> Result<Option<usize>, Fail> {
    for (i, (text, x, y, z, check)) in rows.iter().enumerate() {
        if !end_so(alloc, text.as_bytes(), &[*x, *y, *z], ending(*check))? {
            return Ok(Some(i));
        }
    }
    Ok(None)
}

#[test]
fn texts_have_their_runs(rt: HostRuntime) -> Result<(), Fail> {
    assert_eq!(rt; wrong_run(rt.alloc(), &RUNS)?, None);
    Ok(())
}
