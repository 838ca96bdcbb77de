// The policies of an orbit and their steps. Ports components/orbits.rs. The list of a `Custom` orbit stands beside the policy, since no enum holds a slice.
ghost use Rattle.std.specs.Prelude.{◌≡◌};
ghost use Rattle.cell_steps.specs.Steps.{policy_of, steps_of, steps_by};
ghost use Rattle.cell_steps.specs.Loans.{AreSteps};
ghost use Rattle.cell_steps.specs.declared.policy.OrbitPolicy.TheVariants.{Custom};

use crate::cells::Class;

#[derive(Clone, Copy, Debug, PartialEq, Eq)]
pub enum OrbitPolicy {
    // 0-cell.
    Vertex,
    // 0-cell, without beta 0: not the whole cell where it is open.
    VertexLinear,
    // 1-cell.
    Edge,
    // 2-cell.
    Face,
    // 2-cell, without beta 0: not the whole cell where it is open.
    FaceLinear,
    // 3-cell.
    Volume,
    // 3-cell, without beta 0: not the whole cell where it is open.
    VolumeLinear,
    // The betas of a list, which stands beside the policy.
    Custom,
}

// The policy whose orbits are the cells of a class.
impl From<Class> for OrbitPolicy {
    ghost from_gives = { λ class policy. policy ≡ policy_of class };

    fn from(class: Class) -> OrbitPolicy {
        match class {
            Class::Vertex => OrbitPolicy::Vertex,
            Class::Edge => OrbitPolicy::Edge,
            Class::Face => OrbitPolicy::Face,
            Class::Volume => OrbitPolicy::Volume,
        }
    }
}

// The steps that a search goes by, in its order, and the policy that they belong to. A step by one beta is the beta's number; by two it is 16 times the outer
// one and the inner one, as 0x12 for b1 of b2.
#[derive(Clone, Copy)]
pub struct Steps<'a> {
    pub policy: OrbitPolicy,
    pub codes: &'a [u8],
    pub ghost are: { AreSteps codes.now },
    pub ghost own: { steps_by policy codes.now ≡ codes.now },
}

// The codes of a policy's steps; none where it is `Custom`.
fn codes_of(policy: OrbitPolicy) -> &'static [u8]
    ensures { result.now ≡ steps_of policy }
{
    match policy {
        OrbitPolicy::Vertex => &[0x12, 0x20, 0x13, 0x30, 0x23, 0x32],
        OrbitPolicy::VertexLinear => &[0x12, 0x13, 0x23],
        OrbitPolicy::Edge => &[2, 3],
        OrbitPolicy::Face => &[1, 0, 3],
        OrbitPolicy::FaceLinear => &[1, 3],
        OrbitPolicy::Volume => &[1, 0, 2],
        OrbitPolicy::VolumeLinear => &[1, 2],
        OrbitPolicy::Custom => &[],
    }
}

// The steps of a policy; none where it is `Custom`.
pub fn steps_of(policy: OrbitPolicy) -> Steps<'static>
    ensures { (result.policy ≡ policy) × (result.codes.now ≡ steps_of policy) }
{
    Steps {
        policy,
        codes: codes_of(policy),
    }
}

// The betas of a list as the steps of a `Custom` orbit, in their order.
pub fn custom_steps(betas: &[u8]) -> Steps<'_>
    requires { AreSteps betas.now }
    ensures { (result.policy ≡ Custom) × (result.codes.now ≡ betas.now) }
{
    Steps {
        policy: OrbitPolicy::Custom,
        codes: betas,
    }
}
