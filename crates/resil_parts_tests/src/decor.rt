//! A job that asks one bulkhead of one permit twice, and whether its run fits bulkheads.

ghost use Rattle.std.specs.Prelude.{◌≡◌, map};
ghost use Rattle.resil_decor.specs.Passes.{sources_of};

use crate::shared::{Sketch, free, job_of, plan_of};
use resil_bulkhead::{Bulkhead, Pass};
use resil_decor::{Asked, Job, Passes, Run};
use resil_retry::{Kind, Outcome};
use std::alloc::Global;
use std::process::Abort;
use std::sync::Wait;

// The run of a job under these bulkheads.
fn run_inside(rt: &impl Wait, job: Job, bulkheads: &[Bulkhead], pass: Vec<Pass>) -> Run
    requires { sources_of pass.items ≡ map (λ b. b.permits) bulkheads.now }
{
    job.run(&mut Passes::new(rt, bulkheads, pass))
}

// A job that asks bulkhead 0 twice.
fn asking_twice(rt: &impl Abort, alloc: Global) -> Job {
    let twice = [Sketch::Bulkhead(0), Sketch::Bulkhead(0)];
    let plan = plan_of(alloc, &twice, &[Outcome::Value(7)]).expect(rt, "a plan");
    job_of(alloc, plan).expect(rt, "a job")
}

// The inner layer asks for a permit while the outer one holds one of the same bulkhead.
#[test]
fn same_bulkhead_twice(rt: HostRuntime) {
    let (bulkhead, pass) = Bulkhead::new(rt.alloc(), "db", 1).expect(&rt, "a bulkhead");
    let pass = Vec::from_array(rt.alloc(), [pass]).expect(&rt, "room for a pass");
    let bulkheads = [bulkhead];
    let run = run_inside(&rt, asking_twice(&rt, rt.alloc()), &bulkheads, pass);
    let asked = [true, false].map(|granted| Asked { id: 0, granted });
    assert!(rt; run.outcome() == Outcome::Error(Kind::Full) && run.calls() == 0);
    assert!(rt; run.asked() == asked.as_slice() && run.fits(&bulkheads));
    assert!(rt; free(&bulkheads[0]) == 1);
}
