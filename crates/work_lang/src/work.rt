//! Workloads.

use place_core::{Declared, Script};
use std::marker::Model;
use target_desc::Target;

/// A workload: the version of its language, 1 or 2, a target, objects in declared order, and a script for each thread.
/// Its target is one of that version, names differ, kinds are valid, starts fit, each line's object is declared and has
/// its call and orders, and the limits of the version hold. In version 1 no script has a block, and no call answers the
/// new value.
#[derive(Drop)]
pub struct Work {
    version: u32,
    target: Target,
    objects: Vec<Declared>,
    threads: Vec<Script>,
}

impl Model for Work {
    ghost use Rattle.work_lang.specs.Workload.{Workload, IsWork};

    ghost Value = { Workload };

    ghost view = { λ w. record { version = w.version; target = w.target; objects = w.objects.items; scripts = w.threads.items } };

    ghost invariant = { λ w. IsWork (record { version = w.version; target = w.target; objects = w.objects.items; scripts = w.threads.items }) };
}

impl Work {
    ghost use Rattle.std.specs.Prelude.{◌≡◌};
    ghost use Rattle.target_desc.specs.Target.{IsTarget, IsOfVersion};
    ghost use Rattle.work_lang.specs.Workload.{IsWork};

    /// The workload of a version, 1 or 2, with a target, these objects and scripts. A run puts the scripts back by it
    /// that it took out by `into_parts`.
    pub fn of_parts(
        version: u32,
        target: Target,
        objects: Vec<Declared>,
        threads: Vec<Script>,
    ) -> Work
        requires { IsWork (record { version = version; target = target; objects = objects.items; scripts = threads.items }) }
        ensures value { result ≡ record { version = version; target = target; objects = objects.items; scripts = threads.items } }
        ensures kept { IsWork result }
    {
        Work {
            version,
            target,
            objects,
            threads,
        }
    }

    /// The version, the target, the objects and the scripts, for a run that hands a script to each thread: nothing is
    /// copied, and `of_parts` makes the workload again.
    pub fn into_parts(self) -> (u32, Target, Vec<Declared>, Vec<Script>)
        ensures value { self ≡ record { version = result.0; target = result.1; objects = result.2.items; scripts = result.3.items } }
        ensures kept { IsWork self }
    {
        (self.version, self.target, self.objects, self.threads)
    }

    /// The version of the language that the workload is written in: 1 or 2.
    pub fn version(&self) -> u32
        ensures value { result ≡ self.now.version }
        ensures kept { IsWork self.now }
    {
        self.version
    }

    /// The target that the workload is written for.
    pub fn target(&self) -> &Target
        ensures value { result.now ≡ self.now.target }
        ensures kept { IsWork self.now }
    {
        &self.target
    }

    /// The same objects and scripts on another target, which is one of the workload's version: in version 1 `big`
    /// doesn't hold of it.
    pub fn with_target(self, target: Target) -> Work
        requires target { IsTarget target }
        requires of_version { IsOfVersion self.version target }
        ensures value { result ≡ record self { target = target } }
        ensures kept { IsWork result }
    {
        let Work {
            version,
            target: _,
            objects,
            threads,
        } = self;
        Work::of_parts(version, target, objects, threads)
    }

    /// The objects, in declared order.
    pub fn objects(&self) -> &[Declared]
        ensures value { result.now ≡ self.now.objects }
        ensures kept { IsWork self.now }
    {
        &self.objects
    }

    /// The script of each thread, in order; contracts see each as its list of pieces.
    pub fn threads(&self) -> &[Script]
        ensures value { result.now ≡ self.now.scripts }
        ensures kept { IsWork self.now }
    {
        &self.threads
    }
}
