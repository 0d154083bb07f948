//! Tests of the generated programs.

use generator::generated;
use std::test::Fail;

const TWO: &str = "unsigned long s,a,b;
pthread_mutex_t m;
void *w(void *p){unsigned long k=(unsigned long)p;pthread_mutex_lock(&m);s=s^(a&(b|k));pthread_mutex_unlock(&m);return 0;}
int main(void){unsigned long e=0;
a=nondet_ulong();b=nondet_ulong();
pthread_t t1;pthread_create(&t1,0,w,(void*)1);e=e^(a&(b|1));
pthread_t t2;pthread_create(&t2,0,w,(void*)2);e=e^(a&(b|2));
pthread_join(t1,0);
pthread_join(t2,0);
assert(s==e);return 0;}
";

#[test]
fn two_threads_are_written(rt: HostRuntime) -> Result<(), Fail> {
    let text = generated(rt.alloc(), 2)?;
    assert_eq!(rt; text.as_slice(), TWO.as_bytes());
    Ok(())
}

#[test]
fn programs_have_their_lengths(rt: HostRuntime) -> Result<(), Fail> {
    let alloc = rt.alloc();
    assert_eq!(rt; generated(alloc, 1)?.len(), 337);
    assert_eq!(rt; generated(alloc, 3)?.len(), 499);
    assert_eq!(rt; generated(alloc, 16)?.len(), 1587);
    Ok(())
}
